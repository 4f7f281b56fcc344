//! What is answered to the lines of one read after another.
ghost use Rattle.std.specs.Prelude.{◌≡◌, ◌+◌, ◌||◌, ℕ, List, [], ◌∷◌, ◌++◌, IsFalse, IfSome, IfNone, IfErr, OnOk, OnErr};
ghost use Rattle.line_sessions.specs.Answers.{Adds, IsLineAnswer, IsToldBad};
ghost use Rattle.line_sessions.specs.Faults.{tells_write};
ghost use Rattle.line_sessions.specs.Lines.{HasNoFeed, counted, all_lines, ended_lines};
ghost use Rattle.line_sessions.specs.Standing.{IsRefusal, StandsAt, Goes, WritesWaiting, IsCleared, Tells, Sends, Finishes};

use crate::fault::Fault;
use crate::program::{Program, Refusal};
use crate::watched::WatchedWriter;
use memchr::memchr;
use std::alloc::Global;
use std::io::Write;

// How many bytes of answers may wait while more lines are answered.
const MOST_WAITING: usize = 64 * 1024;

/// The bytes before the first line feed, and those after it.
fn first_line(bytes: &[u8]) -> Option<(&[u8], &[u8])>
    ensures parts { IfSome result (λ p. bytes.now ≡ p.0.now ++ 10 ∷ p.1.now) }
    ensures line { IfSome result (λ p. HasNoFeed p.0.now) }
    ensures none { IfNone result (HasNoFeed bytes.now) }
{
    let place = memchr(b'\n', bytes)?;
    let (line, fed) = bytes.split_at(place);
    let (_, after) = fed.split_at(1);
    Some((line, after))
}

/// The answers that aren't written yet, the count of lines, and what is told of a bad one.
#[derive(Drop)]
struct Conversation {
    answers: Vec<u8>,
    count: u64,
    remark: &'static str,
}

impl Conversation {
    /// Answers the line of this number; an empty one has an empty answer. After a failure the
    /// answers are as before.
    fn reply<P: Program>(&mut self, program: &mut P, line: &[u8], number: u64) -> Result<(), Fault>
        ensures answered { OnOk result (Adds (IsLineAnswer P.replies) line.now
            program.old program.new self.old.answers.items self.new.answers.items) }
        ensures refused { IfErr result (λ e. IsRefusal
            (IsToldBad P.is_bad P.says self.new.remark.now) P.gives_up e line.now number
            program.old program.new) }
        ensures unchanged { OnErr result (self.new.answers.items ≡ self.old.answers.items) }
    {
        if line.is_empty() {
            return Ok(());
        }
        let whole = self.answers.len();
        let Err(why) = program.answer(line, &mut self.answers) else {
            return Ok(());
        };
        self.answers.truncate(whole);
        match why {
            Refusal::Bad(remark) => {
                self.remark = remark;
                Err(Fault::BadLine(number))
            }
            Refusal::Memory => Err(Fault::Memory),
        }
    }

    /// Answers and counts a good line. After a failure the answers are as before.
    fn answer_line<P: Program>(&mut self, program: &mut P, line: &[u8]) -> Result<(), Fault>
        ensures answered { OnOk result (Adds (IsLineAnswer P.replies) line.now
            program.old program.new self.old.answers.items self.new.answers.items) }
        ensures count { OnOk result (self.new.count ≡ counted (self.old.count + 1)) }
        ensures refused { IfErr result (λ e. IsRefusal
            (IsToldBad P.is_bad P.says self.new.remark.now) P.gives_up e line.now
            (counted (self.old.count + 1)) program.old program.new) }
        ensures unchanged { OnErr result (self.new.answers.items ≡ self.old.answers.items) }
    {
        let number = self.count.saturating_add(1);
        self.reply(program, line, number)?;
        self.count = number;
        Ok(())
    }
}

/// A conversation, and the bytes after the last line feed.
#[derive(Drop)]
pub(super) struct Session {
    conversation: Conversation,
    open_line: Vec<u8>,
}

impl Session {
    pub(super) fn new(alloc: Global) -> Session
        ensures line { result.open_line.items ≡ [] }
        ensures answers { result.conversation.answers.items ≡ [] }
        ensures count { result.conversation.count ≡ 0 }
    {
        Session {
            conversation: Conversation {
                answers: Vec::new(alloc),
                count: 0,
                remark: "",
            },
            open_line: Vec::new(alloc),
        }
    }

    /// What is told of the bad line, behind its number.
    pub(super) fn remark(&self) -> &'static str
        ensures { result ≡ self.now.conversation.remark }
    {
        self.conversation.remark
    }

    /// Keeps bytes of a line that hasn't ended.
    fn buffer_rest(&mut self, bytes: &[u8]) -> Result<(), Fault>
        ensures kept { OnOk result
            (self.new.open_line.items ≡ self.old.open_line.items ++ bytes.now) }
        ensures fault { IfErr result (λ e. e ≡ Fault.Memory) }
        ensures conversation { self.new.conversation ≡ self.old.conversation }
    {
        match self.open_line.extend_from_slice(bytes) {
            Ok(()) => Ok(()),
            Err(_) => Err(Fault::Memory),
        }
    }

    /// Answers the line that these bytes end.
    fn end_line<P: Program>(&mut self, program: &mut P, bytes: &[u8]) -> Result<(), Fault>
        ensures answered { (b sent : List ℕ) (start : P)
            → StandsAt P.replies b sent start program.old self.old → HasNoFeed bytes.now
            → Goes P.replies (IsToldBad P.is_bad P.says self.new.conversation.remark.now)
            P.gives_up result (b ++ bytes.now ++ 10 ∷ []) sent start program.new self.new }
        ensures no_write_fault { IsFalse (tells_write result) }
    {
        if self.open_line.is_empty() {
            return self.conversation.answer_line(program, bytes);
        }
        self.buffer_rest(bytes)?;
        self.conversation
            .answer_line(program, self.open_line.as_slice())?;
        self.open_line.clear();
        Ok(())
    }

    /// Answers the bytes after the last line feed, where there are any, as a line.
    fn end_last_line<P: Program>(&mut self, program: &mut P) -> Result<(), Fault>
        ensures answered { (b sent : List ℕ) (start : P)
            → StandsAt P.replies b sent start program.old self.old
            → (whole : List ℕ) × (ended_lines whole ≡ all_lines b)
            × Goes P.replies (IsToldBad P.is_bad P.says self.new.conversation.remark.now)
            P.gives_up result whole sent start program.new self.new }
        ensures no_write_fault { IsFalse (tells_write result) }
    {
        if self.open_line.is_empty() {
            return Ok(());
        }
        self.end_line(program, b"")
    }

    /// Writes the answers that were made, also those before a fault.
    fn send<W: Write>(
        &mut self,
        outcome: Result<(), Fault>,
        writer: &mut WatchedWriter<W>,
    ) -> Result<(), Fault>
        ensures sent { WritesWaiting outcome result self.old.conversation.answers.items
            writer.old.held writer.new.held }
        ensures cleared { OnOk result (IsCleared self.old self.new) }
        ensures remark { self.new.conversation.remark ≡ self.old.conversation.remark }
        ensures noted { IsFalse (tells_write outcome)
            → writer.new.has_failed ≡ (writer.old.has_failed || tells_write result) }
    {
        writer.write_all(self.conversation.answers.as_slice())?;
        self.conversation.answers.clear();
        outcome
    }

    /// Answers the line that these bytes end. Writes the answers at a fault, and where many wait.
    fn feed_line<P: Program, W: Write>(
        &mut self,
        program: &mut P,
        line: &[u8],
        writer: &mut WatchedWriter<W>,
    ) -> Result<(), Fault>
        ensures told { (b sent : List ℕ) (start : P)
            → StandsAt P.replies b sent start program.old self.old → HasNoFeed line.now
            → Tells P.replies (IsToldBad P.is_bad P.says self.new.conversation.remark.now)
            P.gives_up result (b ++ line.now ++ 10 ∷ []) sent writer.old.held writer.new.held start
            program.new self.new }
        ensures noted { writer.new.has_failed ≡ (writer.old.has_failed || tells_write result) }
    {
        let outcome = self.end_line(program, line);
        if outcome.is_err() || self.conversation.answers.len() > MOST_WAITING {
            return self.send(outcome, writer);
        }
        Ok(())
    }

    /// Hears more bytes, and writes the answers to the lines that end among them.
    pub(super) fn feed<P: Program, W: Write>(
        &mut self,
        program: &mut P,
        bytes: &[u8],
        writer: &mut WatchedWriter<W>,
    ) -> Result<(), Fault>
        ensures sent { (b sent : List ℕ) (start : P)
            → StandsAt P.replies b sent start program.old self.old
            → Sends P.replies (IsToldBad P.is_bad P.says self.new.conversation.remark.now)
            P.gives_up result (b ++ bytes.now) sent writer.old.held writer.new.held start
            program.new self.new }
        ensures noted { writer.new.has_failed ≡ (writer.old.has_failed || tells_write result) }
    {
        let mut rest = bytes;
        while let Some((line, after)) = first_line(rest) {
            self.feed_line(program, line, writer)?;
            rest = after;
        }
        let outcome = self.buffer_rest(rest);
        self.send(outcome, writer)
    }

    /// Answers what stands after the last line feed.
    pub(super) fn finish<P: Program, W: Write>(
        &mut self,
        program: &mut P,
        writer: &mut WatchedWriter<W>,
    ) -> Result<(), Fault>
        ensures sent { (b sent : List ℕ) (start : P)
            → StandsAt P.replies b sent start program.old self.old
            → Finishes P.replies (IsToldBad P.is_bad P.says self.new.conversation.remark.now)
            P.gives_up result b sent writer.old.held writer.new.held start program.new }
        ensures noted { writer.new.has_failed ≡ (writer.old.has_failed || tells_write result) }
    {
        let outcome = self.end_last_line(program);
        self.send(outcome, writer)
    }
}
