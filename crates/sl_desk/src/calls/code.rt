//! Compiling a rulebook: from its bytes to a code file and the listing of its instructions.

ghost use Rattle.std.specs.Prelude.{◌≡◌, IfOk, IfErr, IfSome};
ghost use Rattle.sl_law_meaning.specs.book.Books.{book_of};
ghost use Rattle.sl_count_inputs.specs.Failures.{counts, counts_after, FailsInOne};
ghost use Rattle.sl_code.specs.Listing.{listing_of};
ghost use Rattle.sl_code.specs.Spelling.{spelling_of};
ghost use Rattle.sl_code_instructions.specs.Proper.{IsProper};
ghost use Rattle.sl_desk.specs.Compiling.{IsCodeOf, IsCompiling, IsCompilingOutput};
ghost use Rattle.sl_count_inputs.specs.Judging.{tree_verdict};
ghost use Rattle.sl_count_inputs.specs.Reading.{book_input, book_failures, ReadsBook};
ghost use Rattle.sl_count_inputs.specs.Writing.{DeliversBoth};

use sl_base_quotients::NoMemory;
use sl_check::CheckedBook;
use sl_code::{listing, to_bytes};
use sl_code_instructions::Code;
use sl_compile::compile;
use sl_count_calls::Answer;
use sl_count_inputs::{
    BookSource, DeskError, RefusedBook, Sink, Source, Status, Verdict, read_book, write_all,
};
use std::alloc::Global;

/// The bytes of a code file, and what is written after it.
#[derive(Drop)]
pub struct Compilation {
    pub file: Vec<u8>,
    pub answer: Answer,
}

impl Compilation {
    /// Writes the file, and then the answer.
    ///
    /// # Errors
    ///
    /// `Write` where one of the sinks failed.
    pub fn deliver<F: Sink, W: Sink>(&self, file: &mut F, out: &mut W) -> Result<Status, DeskError>
        ensures delivers { DeliversBoth (λ status bytes text. (status ≡ self.now.answer.status) × (bytes ≡ self.now.file.items) × (text ≡ self.now.answer.text.items))
            (F.failed file.old) (F.failed file.new) (F.contents file.old) (F.contents file.new) (W.contents out.old) (W.contents out.new) result }
        ensures failures { FailsInOne 0 0 (F.failed file.old) (F.failed file.new) (W.failed out.old) (W.failed out.new) result }
        ensures error { IfErr result (λ e. e ≡ DeskError.Write) }
    {
        match write_all(file, self.file.as_slice()) {
            Ok(()) => self.answer.deliver(out),
            Err(_) => Err(DeskError::Write),
        }
    }
}

// The bytes of a code, and its listing.
fn spelled(alloc: Global, code: &Code) -> Result<Compilation, NoMemory>
    ensures { IfOk result (λ c. (c.answer.status ≡ Status.Done) × IsProper code.now × (c.file.items ≡ spelling_of code.now) × (c.answer.text.items ≡ listing_of code.now)) }
{
    let _instrs = code.instrs();
    let file = to_bytes(alloc, code)?;
    let answer = Answer::done(listing(alloc, code)?);
    Ok(Compilation { file, answer })
}

// The code of a good book: its bytes and its listing.
fn compiled(alloc: Global, book: &CheckedBook) -> Result<Compilation, NoMemory>
    ensures { IfOk result (λ c. (c.answer.status ≡ Status.Done) × IsCodeOf (book_of book.now.book) c.file.items c.answer.text.items) }
{
    let code = compile(alloc, book)?;
    let compilation = spelled(alloc, code.code());
    drop(code);
    compilation
}

/// What compiling writes of a judged book: its code, or the line that refuses it.
pub fn compilation_of(
    alloc: Global,
    book: &Verdict<CheckedBook, RefusedBook<'_>>,
) -> Result<Compilation, NoMemory>
    ensures { IfOk result (λ c. IsCompiling (tree_verdict book.entry.now) c.answer.status c.file.items c.answer.text.items) }
{
    match book {
        Verdict::Good(good) => compiled(alloc, good),
        Verdict::Refused(refused) => {
            let answer = Answer::refused(refused.why().line(alloc)?);
            Ok(Compilation {
                file: Vec::new(alloc),
                answer,
            })
        }
    }
}

// What compiling a book writes.
fn answer_to<B: Source>(
    alloc: Global,
    book: &mut BookSource<'_, B>,
) -> Result<Compilation, DeskError>
    ensures answer { IfOk result (λ c. IfSome (book_input B.remaining book.old) (λ input.
        IsCompilingOutput input c.answer.status c.file.items c.answer.text.items)) }
    ensures failures { counts (book_failures B.failed book.new) 0 0 0 ≡ counts_after (counts (book_failures B.failed book.old) 0 0 0) result }
    ensures book { ReadsBook B.remaining book.old book.new }
{
    let read = read_book(alloc, book)?;
    let compilation = compilation_of(alloc, &read.verdict);
    drop(read);
    Ok(compilation?)
}

/// Compiles a rulebook: reads it, writes its code to `file`, and then the listing of its instructions to `out`; or writes to `out` the line that
/// refuses the book, and nothing to `file` (docs/output.md).
///
/// # Errors
///
/// `Read` where the source failed, `Write` where one of the sinks did, and `NoMemory`.
pub fn code<B: Source, F: Sink, W: Sink>(
    alloc: Global,
    book: &mut BookSource<'_, B>,
    file: &mut F,
    out: &mut W,
) -> Result<Status, DeskError>
    // The bytes and the text that are delivered are the output of the book, where its bytes are known.
    ensures delivers { DeliversBoth (λ status bytes text. IfSome (book_input B.remaining book.old) (λ input.
        IsCompilingOutput input status bytes text)) (F.failed file.old) (F.failed file.new) (F.contents file.old) (F.contents file.new) (W.contents out.old) (W.contents out.new) result }

    // No call of the source or of a sink failed, or that one of which the error speaks.
    ensures failures { FailsInOne (book_failures B.failed book.old) (book_failures B.failed book.new)
        (F.failed file.old) (F.failed file.new) (W.failed out.old) (W.failed out.new) result }

    // What is taken of the book.
    ensures book { ReadsBook B.remaining book.old book.new }
{
    let compilation = answer_to(alloc, book)?;
    compilation.deliver(file, out)
}
