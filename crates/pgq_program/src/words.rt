ghost use Rattle.std.specs.Prelude.{◌≡◌, IfOk, IfSome, option_map};
ghost use Rattle.table_words.specs.TableWords.{table_words};
ghost use Rattle.pgq_program.specs.Commands.Asked.{OfRun, OfEval, OfSample};
ghost use Rattle.pgq_program.specs.Commands.{view, of_one, of_two, of_more, over_tables, sample_count, command_of, Asks};

use pgq_base::{List, NoMemory, Text};
use std::alloc::Global;
use table_words::{TableWord, files_are_asked, table_words};

/// What the words ask for.
#[derive(Drop)]
pub(crate) enum Command<'a> {
    Translate(&'a str, &'a str),
    Check(&'a str),
    CheckQuery(&'a str, &'a str),
    Run(&'a str, &'a str, List<TableWord>),
    Eval(&'a str, &'a str, List<TableWord>),
    Sample(u32),
}

// The most persons of the generated run.
const MOST_PERSONS: u32 = 2000;

// How many persons a word asks for: a number in decimal, without a sign and without zeros in front.
fn sample_count(alloc: Global, word: &str) -> Result<Option<u32>, NoMemory>
    ensures { IfOk result (λ count. count ≡ sample_count word.now) }
{
    let Ok(count) = word.parse::<u32>() else {
        return Ok(None);
    };
    if count < 1 || count > MOST_PERSONS {
        return Ok(None);
    }
    let text = count.to_string(alloc)?;
    if text.as_str() == word {
        return Ok(Some(count));
    }
    Ok(None)
}

// The generated run with so many persons, where the word is a number of them.
fn sample<'a>(alloc: Global, word: &str) -> Result<Option<Command<'a>>, NoMemory>
    ensures { IfOk result (λ asked. option_map view asked ≡ option_map (λ count. OfSample count) (sample_count word.now)) }
{
    match sample_count(alloc, word)? {
        Some(count) => Ok(Some(Command::Sample(count))),
        None => Ok(None),
    }
}

// The answer of a query over the tables of some words, where these have their form.
fn run<'a>(
    alloc: Global,
    schema: &'a str,
    query: &'a str,
    words: &[Text],
) -> Result<Option<Command<'a>>, NoMemory>
    ensures { IfOk result (λ asked. option_map view asked ≡ over_tables (OfRun schema.now query.now) words.now) }
{
    match table_words(alloc, words)? {
        Some(tables) => Ok(Some(Command::Run(schema, query, tables))),
        None => Ok(None),
    }
}

// The evaluation of an SQL text over the tables of some words, where these have their form.
fn evaluation<'a>(
    alloc: Global,
    schema: &'a str,
    sql: &'a str,
    words: &[Text],
) -> Result<Option<Command<'a>>, NoMemory>
    ensures { IfOk result (λ asked. option_map view asked ≡ over_tables (OfEval schema.now sql.now) words.now) }
{
    match table_words(alloc, words)? {
        Some(tables) => Ok(Some(Command::Eval(schema, sql, tables))),
        None => Ok(None),
    }
}

fn of_one<'a>(alloc: Global, command: &str, word: &'a str) -> Result<Option<Command<'a>>, NoMemory>
    ensures { IfOk result (λ asked. option_map view asked ≡ of_one command.now word.now) }
{
    if command == "check" {
        return Ok(Some(Command::Check(word)));
    }
    if command == "sample" {
        return sample(alloc, word);
    }
    Ok(None)
}

fn of_two<'a>(command: &str, first: &'a str, second: &'a str) -> Option<Command<'a>>
    ensures { option_map view result ≡ of_two command.now first.now second.now }
{
    if command == "translate" {
        return Some(Command::Translate(first, second));
    }
    if command == "check" {
        return Some(Command::CheckQuery(first, second));
    }
    None
}

fn of_more<'a>(
    alloc: Global,
    command: &str,
    first: &'a str,
    second: &'a str,
    more: &[Text],
) -> Result<Option<Command<'a>>, NoMemory>
    ensures { IfOk result (λ asked. option_map view asked ≡ of_more command.now first.now second.now more.now) }
{
    if command == "eval" {
        return evaluation(alloc, first, second, more);
    }
    if command == "run" {
        return run(alloc, first, second, more);
    }
    match more {
        [] => Ok(of_two(command, first, second)),
        _ => Ok(None),
    }
}

fn command_of<'a>(alloc: Global, words: &'a [Text]) -> Result<Option<Command<'a>>, NoMemory>
    ensures { IfOk result (λ asked. option_map view asked ≡ command_of words.now) }
{
    match words {
        [command, word] => of_one(alloc, command.as_text(), word.as_text()),
        [command, first, second, more @ ..] => {
            let command = command.as_text();
            of_more(alloc, command, first.as_text(), second.as_text(), more)
        }
        _ => Ok(None),
    }
}

/// The command of the words; None where they have another form.
pub(crate) fn read_words<'a>(
    alloc: Global,
    words: &'a [Text],
) -> Result<Option<Command<'a>>, NoMemory>
    ensures value { IfOk result (λ asked. option_map view asked ≡ command_of words.now) }
    ensures asks { IfOk result (λ asked. IfSome asked (λ command. Asks (view command) words.now)) }
{
    files_are_asked();
    command_of(alloc, words)
}
