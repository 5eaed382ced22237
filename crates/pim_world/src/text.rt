//! One line of a text of facts, after the first.

ghost use Rattle.std.specs.Prelude.{◌≡◌, MatchResult, Some, None};
ghost use Rattle.pim_world.specs.Held.{world_of};
ghost use Rattle.pim_world.specs.Texts.{line_after};

use crate::fault::Why;
use crate::world::World;
use pim_fact_lines::{Line, read_line, why_not};

impl World {
    /// Returns the line that bytes spell, if it may follow those so far.
    ///
    /// # Errors
    ///
    /// Returns why the line is invalid: it has the form of none, or it may not follow.
    pub fn read(&self, bytes: &[u8]) -> Result<Line, Why>
        ensures { MatchResult result
            (λ line. line_after (world_of self.now) bytes.now ≡ Some line)
            (λ _. line_after (world_of self.now) bytes.now ≡ None) }
    {
        let Some(line) = read_line(bytes) else {
            return Err(Why::Malformed(why_not(bytes)));
        };
        match self.refusal(&line) {
            Some(why) => Err(Why::Refused(why)),
            None => Ok(line),
        }
    }
}

#[cfg(test)]
mod tests {
    use crate::world::World;
    use std::test::Fail;

    /// An invalid line in a world without threads, and why it is invalid.
    const INVALID: &[(&[u8], &str)] = &[
        (b"thread 1 30", "it should be: thread NUMBER LEVEL NAME"),
        (b"500 1 granted 1", "its thread isn't declared"),
    ];

    #[test]
    fn fault_has_the_reason(rt: HostRuntime) -> Result<(), Fail> {
        let world = World::new(rt.alloc());
        for (line, says) in INVALID {
            let Err(why) = world.read(line) else {
                return Err(Fail::from("the line is valid"));
            };
            let said = format!(in rt.alloc(); "{why}")?;
            assert_eq!(rt; said.as_str(), *says);
        }
        Ok(())
    }

    #[test]
    fn thread_may_be_declared(rt: HostRuntime) {
        let world = World::new(rt.alloc());
        assert!(rt; world.read(b"thread 1 30 a").is_ok());
    }
}
