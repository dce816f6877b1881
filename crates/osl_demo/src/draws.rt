ghost use Rattle.std.specs.Prelude.{◌≡◌, ◌<◌, ◌^◌};
ghost use Rattle.osl_demo.specs.Draws.{next, drawn};

const FACTOR: u64 = 1_103_515_245;

const SUMMAND: u64 = 12_345;

/// How many states there are: 2^31.
const STATES: u64 = 2_147_483_648;

/// The lower bits of a state repeat soon, so a draw leaves them out.
const DROPPED: u32 = 65_536;

/// The generator's state.
#[derive(Debug, Drop)]
pub(crate) struct Draws {
    pub(crate) state: u32,
    ghost in_range: { state < 2 ^ 31 },
}

impl Draws {
    /// The draws that start at a number.
    pub(crate) fn start(state: u32) -> Draws
        requires { state < 2 ^ 31 }
        ensures { result.state ≡ state }
    {
        Draws { state }
    }

    /// The next number below `below`.
    #[tactic(auto, unfolding(crate::specs::Draws::next, crate::specs::Draws::drawn))]
    pub(crate) fn draw(&mut self, below: u32) -> u32
        requires { 0 < below }
        ensures number { result ≡ drawn self.old.state below }
        ensures below { result < below }
        ensures state { self.new.state ≡ next self.old.state }
    {
        self.state = ((u64::from(self.state) * FACTOR + SUMMAND) % STATES) as u32;
        self.state / DROPPED % below
    }
}
