// The clock and the random words of a runtime.
ghost use Rattle.std.specs.Prelude.{◌≡◌, ◌<◌, ◌^◌, ◌↔◌, IsSome, IfSome};
ghost use Rattle.std.specs.Time.{system_time_nanos};

use crate::fault::system_fault;
use crate::random_file::RandomFile;
use crate::{Ambient, IoFault};
use std::alloc::Global;
use std::fs;
use std::rt::{Clock, Files};
use std::time::{SystemTime, UNIX_EPOCH};

/// The clock of a runtime, and the random words of its `/dev/urandom`, which is opened at the first word and read in
/// blocks. It tells no content.
#[derive(Drop)]
pub struct HostAmbient<'a, R: Files> {
    rt: &'a R,
    random: Option<RandomFile<R::File>>,
    faults: u64,
}

impl<'a, R: Files + Clock> HostAmbient<'a, R> {
    /// The clock and the random words of this runtime.
    pub fn new(rt: &'a R) -> HostAmbient<'a, R>
        ensures { result.faults ≡ 0 }
    {
        HostAmbient {
            rt,
            random: None,
            faults: 0,
        }
    }

    // The next word of the file, which is opened where it isn't yet.
    fn draw(&mut self, alloc: Global) -> Result<u64, IoFault>
        ensures { self.new.faults ≡ self.old.faults }
    {
        if let Some(random) = &mut self.random {
            return random.word();
        }
        let file = match fs::open(self.rt, "/dev/urandom") {
            Ok(file) => file,
            Err(error) => return Err(system_fault(&error)),
        };
        let Ok(mut random) = RandomFile::new(alloc, file) else {
            return Err(IoFault::Memory);
        };
        let word = random.word()?;
        self.random = Some(random);
        Ok(word)
    }
}

impl<R: Files + Clock> Ambient for HostAmbient<'_, R> {
    ghost use Rattle.std.specs.Prelude.{None};

    ghost seen = { λ s. record { times = None; words = None; faults = s.faults } };

    /// A clock that fails or stands outside the years 1970 to 2554 is Failed.
    fn now(&mut self, _alloc: Global) -> Result<u64, IoFault> {
        if let Ok(time) = SystemTime::now(self.rt) {
            if let Some(nanoseconds) = nanoseconds(time) {
                return Ok(nanoseconds);
            }
        }
        self.faults = self.faults.saturating_add(1);
        Err(IoFault::Failed)
    }

    /// A `/dev/urandom` that can't be opened or read, or that ends, is Failed, but Memory where the system says
    /// that memory is short.
    fn word(&mut self, alloc: Global) -> Result<u64, IoFault> {
        let answer = self.draw(alloc);
        if let Err(IoFault::Failed) = &answer {
            self.faults = self.faults.saturating_add(1);
        }
        answer
    }
}

/// A time in nanoseconds since the start of 1970, where a `u64` holds them.
fn nanoseconds(time: SystemTime) -> Option<u64>
    ensures some { IfSome result (λ nanoseconds. nanoseconds ≡ system_time_nanos time) }
    ensures fits { IsSome result ↔ (system_time_nanos time < 2 ^ 64) }
{
    let passed = time.duration_since(UNIX_EPOCH).ok()?;
    u64::try_from(passed.as_nanos()).ok()
}
