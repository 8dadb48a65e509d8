ghost use Rattle.std.specs.Prelude.{◌≡◌, IfOk, map, string_bytes};
ghost use Rattle.std.specs.Vec.Iter.{into_iter_items};

use pgq_base::{List, NoMemory, Text};
use std::alloc::Global;
use std::env::{self, Args, FillError};
use std::io::ErrorKind;
use std::rt::Env;

// The environment whose words begin after the program's name, which need not be UTF-8.
#[derive(Clone, Copy)]
struct AfterName<'a, R>(&'a R);

impl<'a, R: Env> Env for AfterName<'a, R> {
    fn arg(&self, i: usize, buf: &mut [u8]) -> Result<usize, FillError> {
        match i.checked_add(1) {
            Some(next) => self.0.arg(next, buf),
            None => Err(FillError::NotPresent),
        }
    }

    fn var(&self, name: &str, buf: &mut [u8]) -> Result<usize, FillError> {
        self.0.var(name, buf)
    }

    fn var_at(&self, i: usize, buf: &mut [u8]) -> Result<usize, FillError> {
        self.0.var_at(i, buf)
    }
}

impl<'a, R: Alloc> Alloc for AfterName<'a, R> {
    type A = R::A;

    fn alloc(&self) -> R::A {
        self.0.alloc()
    }
}

/// The words after the program's name. Where one of them is not UTF-8 the list is empty, which is no
/// command.
pub(crate) fn words_after_name<R: Env + AllocGlobal>(rt: &R) -> Result<List<Text>, NoMemory> {
    match env::args(&AfterName(rt)) {
        Ok(words) => texts_of(rt.alloc(), words),
        Err(error) => match error.kind() {
            ErrorKind::InvalidData => Ok(List::new(rt.alloc())),
            _ => Err(NoMemory),
        },
    }
}

// The words, in order.
fn texts_of(alloc: Global, words: Args) -> Result<List<Text>, NoMemory>
    ensures { IfOk result (λ texts. texts ≡ map string_bytes (into_iter_items words)) }
{
    let mut texts = List::new(alloc);
    for word in words {
        texts.push(Text::from_text(alloc, word.as_str())?)?;
    }
    Ok(texts)
}
