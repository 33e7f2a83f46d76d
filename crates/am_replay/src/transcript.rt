//! What each line of a script answered, and how that is printed.

ghost use Rattle.std.specs.Prelude.{◌≡◌, ◌++◌, ◌∷◌, [], IfOk, OnOk, Some, string_bytes};
ghost use Rattle.std.specs.List.{list_any};
ghost use Rattle.am_answers.specs.Answers.{is_out_of_memory};
ghost use Rattle.am_replay.specs.Printing.{counts_line, counts_text};
ghost use Rattle.am_replay.specs.Printing.{ran_out_of_memory, transcript_text};

use crate::line_counts::LineCounts;
use crate::lines_text::{print_in_threads, threads_to_print};
use am_answers::Answer;
use am_provider::Counts;
use am_script::{Form, JsonLine, Line};
use std::alloc::{AllocError, Global};
use std::fmt;
use std::thread::Threads;

/// What each line of a script answered, and the counts at the end.
#[derive(Drop)]
pub struct Transcript {
    pub lines: Vec<Line>,
    /// What each thread answered to each of its own lines.
    pub answers: Vec<Vec<Vec<Answer>>>,
    pub counts: Counts,
}

impl Transcript {
    /// Whether some call was out of memory.
    pub fn ran_out_of_memory(&self) -> bool
        ensures { result ≡ ran_out_of_memory self.now.answers.items }
    {
        self.answers.iter().any(|all| has_one_run_out(all))
    }

    /// A line for each answer, and the last one. The answers to many lines are printed by as many threads as there are
    /// processors, up to eight.
    pub fn text<R: Threads + Sync>(
        &self,
        rt: &R,
        alloc: Global,
        form: Form,
    ) -> Result<String, AllocError>
        ensures { IfOk result (λ text. string_bytes text
            ≡ transcript_text form self.now.lines.items self.now.answers.items self.now.counts) }
    {
        let threads = threads_to_print(rt, self.lines.len());
        let none = LineCounts::none();
        let mut text = print_in_threads(
            rt,
            alloc,
            threads,
            form,
            &self.answers,
            none,
            &self.lines,
        )?;
        write_counts(&mut text, form, self.counts)?;
        Ok(text)
    }
}

/// The last line of the output.
pub fn counts_line(alloc: Global, form: Form, counts: Counts) -> Result<String, AllocError>
    ensures { IfOk result (λ text. string_bytes text ≡ counts_line form counts) }
{
    let mut text = String::new(alloc);
    write_counts(&mut text, form, counts)?;
    Ok(text)
}

fn write_counts(text: &mut String, form: Form, counts: Counts) -> Result<(), AllocError>
    ensures { OnOk result (string_bytes text.new ≡ string_bytes text.old ++ counts_line form counts) }
{
    match form {
        Form::Text => {
            let counts = End(counts);
            write!(text, "{counts}\n")
        }
        Form::Json => write_end(text, counts),
    }
}

fn write_end(text: &mut String, counts: Counts) -> Result<(), AllocError>
    ensures { OnOk result
        (string_bytes text.new ≡ string_bytes text.old ++ counts_line Form.Json counts) }
{
    let mut line = JsonLine::begin(*text.allocator())?;
    line.text("answer", "end")?;
    line.number("places", counts.places)?;
    line.number("posts", counts.posts)?;
    line.number("stored", counts.stored)?;
    line.end(text)
}

fn has_one_run_out(all: &[Vec<Answer>]) -> bool
    ensures { result ≡ list_any (λ given. list_any is_out_of_memory given.items) all.now }
{
    all.iter().any(|given| has_run_out(given))
}

fn has_run_out(given: &[Answer]) -> bool
    ensures { result ≡ list_any is_out_of_memory given.now }
{
    given.iter().any(|answer| answer.is_out_of_memory())
}

// The last line of the output.
#[derive(Drop)]
struct End(Counts);

impl fmt::Display for End {
    ghost output = { λ end. Some (counts_text end.0) };

    fn fmt<W: fmt::Write>(&self, f: &mut fmt::Formatter<W>) -> fmt::Result {
        let Counts {
            places,
            posts,
            stored,
        } = self.0;
        write!(f, "end places {places} posts {posts} stored {stored}")
    }
}
