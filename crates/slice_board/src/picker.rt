// Who is next.
ghost use Rattle.std.specs.Prelude.{◌≡◌, ◌<◌, ◌^◌, ℕ};

/// A callback that is given the number of a turn, from 0, and how many programs there are, and answers which one is next.
pub type Pick = Box<dyn Fn(u64, u64) -> u64>;

/// Picks which program is next, by a callback beside the fact that its answers are below the number of programs.
#[derive(Drop)]
pub struct Picker {
    f: Pick,
    ghost callable: { (turn count : ℕ) → turn < 2 ^ 64 → 0 < count → count < 2 ^ 64 → Pick.pre f turn count },
    ghost below: { (turn count program : ℕ) → turn < 2 ^ 64 → 0 < count → count < 2 ^ 64 → Pick.post f turn count program → program < count },
}

impl Picker {
    /// A picker by its callback, which may be called for every turn and every count of one program or more, and answers a number below it.
    pub fn new(f: Box<dyn Fn(u64, u64) -> u64>) -> Picker
        requires callable { (turn count : ℕ) → turn < 2 ^ 64 → 0 < count → count < 2 ^ 64 → pre f turn count }
        requires below { (turn count program : ℕ) → turn < 2 ^ 64 → 0 < count → count < 2 ^ 64 → post f turn count program → program < count }
        ensures { result.f ≡ f }
    {
        Picker { f }
    }

    /// The program for the turn of a number among so many: an answer that the callback gives.
    pub fn pick(&self, turn: u64, count: u64) -> u64
        requires { 0 < count }
        ensures picks { Pick.post self.now.f turn count result }
        ensures below { result < count }
    {
        (self.f)(turn, count)
    }
}
