//! Lines out of an input that comes in pieces.

ghost use Rattle.std.specs.Prelude.{◌≡◌, ◌<◌, ◌≤◌, [], ◌∷◌, ◌++◌, length, take, IfOk};
ghost use Rattle.ascon_cli.specs.Errors.{Grew};
ghost use Rattle.ascon_cli.specs.Format.{reply};
ghost use Rattle.ascon_cli.specs.Stream.{last_reply, pending, replies, CutsDoNotMatter, LineByLine};

use crate::answers::Answers;
use crate::fault::Fault;
use crate::reply::perform;
use crate::request::read_request;
use crate::secret::Secret;
use crate::split::position;
use std::alloc::{AllocError, Global};

/// The line that is being read, and the answers that have not been written.
#[derive(Drop)]
pub struct Responder {
    line: Secret,
    pub out: Answers,
}

impl Responder {
    /// Nothing read, and nothing to write.
    pub fn new(heap: Global) -> Responder
        ensures line { result.line ≡ [] }
        ensures out { result.out ≡ [] }
    {
        Responder {
            line: Secret::new(heap),
            out: Answers::new(heap),
        }
    }

    /// Takes `input` up to the end of its first line, whose start may have come before, and answers that line.
    ///
    /// Says how many bytes it took. Without a newline all are taken, and the line waits for more.
    #[tactic(auto, using(crate::proofs::Flow::theorems))]
    pub fn take_line(&mut self, input: &[u8]) -> Result<usize, AllocError>
        ensures bound { IfOk result (λ n. (n ≤ length input.now) × (0 < length input.now → 0 < n)) }
        ensures text { IfOk result (λ n. self.new.out ≡ self.old.out ++ replies self.old.line (take n input.now)) }
        ensures rest { IfOk result (λ n. self.new.line ≡ pending self.old.line (take n input.now)) }
        ensures cuts { CutsDoNotMatter }
        ensures lines { LineByLine }
    {
        let Some(end) = position(input, b'\n') else {
            self.line.extend(input)?;
            return Ok(input.len());
        };
        self.line.extend(&input[..end])?;
        self.answer_line()?;
        Ok(end + 1)
    }

    /// Answers a last line that no newline ended, and has none then.
    pub fn take_last(&mut self) -> Result<(), AllocError>
        ensures text { Grew result self.old.out self.new.out (last_reply self.old.line) }
        ensures rest { self.new.line ≡ [] }
    {
        if self.line.is_empty() {
            return Ok(());
        }
        self.answer_line()
    }

    // Answers the line, and begins another.
    // For want of memory `out` keeps its whole answers, and no part of another.
    fn answer_line(&mut self) -> Result<(), AllocError>
        ensures text { Grew result self.old.out self.new.out (reply self.old.line ++ 10 ∷ []) }
        ensures rest { self.new.line ≡ [] }
    {
        let whole = self.out.as_slice().len();
        let result = self.answer_and_end();
        self.line.clear();
        if result.is_err() {
            self.out.truncate(whole);
        }
        result
    }

    fn answer_and_end(&mut self) -> Result<(), AllocError>
        ensures { Grew result self.old.out self.new.out (reply self.old.line ++ 10 ∷ []) }
    {
        self.answer()?;
        self.out.extend(b"\n")
    }

    // Adds the answer to the line, without a newline, to `out`.
    // The program goes on after a line that cannot be read, and not for want of memory.
    #[tactic(auto, unfolding(crate::specs::Format::reply))]
    fn answer(&mut self) -> Result<(), AllocError>
        ensures { Grew result self.old.out self.new.out (reply self.old.line) }
    {
        match read_request(self.line.heap(), self.line.as_slice()) {
            Ok(request) => perform(request, &mut self.line, &mut self.out),
            Err(Fault::Line(error)) => self.out.extend(error.message().as_bytes()),
            Err(Fault::Memory) => Err(AllocError),
        }
    }
}
