//! The statements of a group's text.

use osl_network::Statement;
use std::marker::Model;

/// The statements of a group's text. Contracts see it as their list.
#[derive(Debug, Drop)]
pub struct GroupText {
    statements: Vec<Statement>,
}

impl Model for GroupText {
    ghost use Rattle.std.specs.Prelude.{List};
    ghost use Rattle.osl_network.specs.declared.statement.Statement.{Statement};

    ghost Value = { List Statement };

    ghost view = { λ text. text.statements.items };
}

impl GroupText {
    ghost use Rattle.std.specs.Prelude.{◌≡◌};

    /// The text of these statements.
    pub(crate) fn of(statements: Vec<Statement>) -> GroupText
        ensures { result ≡ statements.items }
    {
        GroupText { statements }
    }

    /// Its statements.
    pub fn as_slice(&self) -> &[Statement]
        ensures { result.now ≡ self.now }
    {
        self.statements.as_slice()
    }
}
