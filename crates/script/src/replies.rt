// What is printed for a line.
ghost use Rattle.std.specs.Prelude.{◌≡◌, ◌++◌, codes, OnErr, OnOk};
ghost use Rattle.script.specs.Commands.{said, echo};
ghost use Rattle.script.specs.Replies.{cannot_read, line_feed, Answered, Replied, Whole};
ghost use Rattle.script.specs.Sessions.{answer_text, told};
ghost use Rattle.text.specs.Texts.{Puts};

use crate::commands::{Command, read};
use crate::session::{Answer, Session};
use std::alloc::{AllocError, Global};
use text::lines::shown_text;
use text::outcomes::Unread;
use text::printing::{put, put_shown};

fn put_answered(out: &mut Vec<u8>, command: &Command, answer: Answer) -> Result<(), AllocError>
    ensures done { Puts result out.old.items (echo (said command.now) ++ (codes ": " ++ (answer_text (told answer) ++ line_feed))) out.new.items }
    ensures same { OnErr result (out.new.items ≡ out.old.items) }
{
    put_shown(out, format_args!("{command}: {answer}\n"))
}

// A line need not be text, so it is put as bytes behind what is.
fn put_unreadable(out: &mut Vec<u8>, number: u64, line: &[u8]) -> Result<(), AllocError>
    ensures { Puts result out.old.items (cannot_read number line.now) out.new.items }
{
    put_shown(out, format_args!("line {number}: cannot read: "))?;
    put(out, shown_text(line))?;
    put(out, b"\n")
}

impl Session {
    // Reads a line, carries it out and answers it; where it cannot be read, `out` is as it was.
    fn answer(&mut self, heap: Global, line: &[u8], out: &mut Vec<u8>) -> Result<(), Unread>
        ensures { Answered result line.now self.old self.new out.old.items out.new.items }
    {
        let Some(command) = read(heap, line)? else {
            return Ok(());
        };
        let answer = self.carry_out(heap, &command)?;
        put_answered(out, &command, answer)?;
        Ok(())
    }

    /// Reads a line, carries it out, and puts what is printed for it behind what `out` holds.
    pub fn line(
        &mut self,
        heap: Global,
        number: u64,
        line: &[u8],
        out: &mut Vec<u8>,
    ) -> Result<(), AllocError>
        ensures done { OnOk result (Replied number line.now self.old self.new out.old.items out.new.items) }
        ensures refused { OnErr result (Whole line.now self.old self.new) }
    {
        match self.answer(heap, line, out) {
            Ok(()) => Ok(()),
            Err(Unread::Unreadable) => put_unreadable(out, number, line),
            Err(Unread::Memory) => Err(AllocError),
        }
    }
}
