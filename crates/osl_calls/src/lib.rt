//! Calls: the functions by name, the built-in ones among them, and what a call means.
//!
//! A call means the one function of its name that costs least (`osl_overload`), with its arguments as that function
//! wants them. `call` answers what `osl_typed`'s definition `Typing.call` has. The built-in functions are in the table of
//! functions from the start, in front of the declared ones (`specs/Table`).
#![tactic(auto)]

mod array_length;
mod built_in;
pub mod calls;
pub mod functions;
mod named;
mod outputs;
mod passing;
mod table;

pub use calls::call;
pub use functions::Functions;
