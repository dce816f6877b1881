//! Sizes: what the parts of a typed tree add up to. The definitions are in `specs/Sizes.antt`, and
//! `specs/Measured.antt` says what of them is kept.

ghost use Rattle.std.specs.Prelude.{◌≡◌, min};
ghost use Rattle.osl_typed.specs.Measured.{cut, leaves_sum};
ghost use Rattle.osl_typed.specs.Sizes.{◌&◌, one_open};

/// The sizes of a typed shader. Each number stops at one above its limit.
#[derive(Clone, Copy, Debug, PartialEq, Eq)]
pub struct Sizes {
    /// How much code it may become.
    pub size: u32,

    /// How many slots that may need.
    pub slots: u32,

    /// How many functions are open at once.
    pub calls: u32,

    /// The bytes of the longest string outside metadata.
    pub longest_text: u32,

    /// The bytes of the longest name.
    pub longest_word: u32,
}

/// What a part of a tree adds to the sizes.
#[derive(Clone, Copy, Debug, PartialEq, Eq)]
pub struct Weight {
    pub size: u32,
    pub slots: u32,

    /// The functions that are open at once in it.
    pub calls: u32,
}

/// How many leaves a kind has, and their slots.
#[derive(Clone, Copy, Debug, PartialEq, Eq)]
pub struct Leaves {
    pub count: u32,
    pub slots: u32,
}

/// One above the most size of a shader.
pub(crate) const SIZE_TOP: u32 = 65_537;

/// One above the most slots of a shader.
pub(crate) const SLOTS_TOP: u32 = 65_537;

/// One above the most functions that are open at once.
pub(crate) const CALL_TOP: u32 = 17;

/// The number, stopped at a top.
pub(crate) fn stopped(n: u64, top: u32) -> u32
    ensures { result ≡ min top n }
{
    if n < top as u64 { n as u32 } else { top }
}

impl Weight {
    /// Nothing.
    pub(crate) const NOTHING: Weight = Weight {
        size: 0,
        slots: 0,
        calls: 0,
    };

    /// Two parts together.
    pub(crate) fn and(self, other: Weight) -> Weight
        ensures { result ≡ cut (self & other) }
    {
        Weight {
            size: stopped(self.size as u64 + other.size as u64, SIZE_TOP),
            slots: stopped(self.slots as u64 + other.slots as u64, SLOTS_TOP),
            calls: if self.calls < other.calls {
                stopped(other.calls as u64, CALL_TOP)
            } else {
                stopped(self.calls as u64, CALL_TOP)
            },
        }
    }

    /// With one more function open round it.
    pub(crate) fn inside_call(self) -> Weight
        ensures { result ≡ cut (one_open self) }
    {
        Weight {
            size: stopped(self.size as u64, SIZE_TOP),
            slots: stopped(self.slots as u64, SLOTS_TOP),
            calls: stopped(1 + self.calls as u64, CALL_TOP),
        }
    }
}

impl Leaves {
    /// The leaves of two kinds together.
    pub(crate) fn and(self, other: Leaves) -> Leaves
        ensures { result ≡ leaves_sum self other }
    {
        Leaves {
            count: stopped(self.count as u64 + other.count as u64, SIZE_TOP),
            slots: stopped(self.slots as u64 + other.slots as u64, SLOTS_TOP),
        }
    }
}
