ghost use Rattle.std.specs.Prelude.{◌≡◌, ◌<◌, All, IfOk, IfSome, length, nat_eq};
ghost use Rattle.std.specs.List.{list_any};
ghost use Rattle.multisets.specs.Bags.{IsWithoutRepeats};
ghost use Rattle.graph_ast.specs.Catalogs.{IsValidCatalog};
ghost use Rattle.table_files.specs.TablePlaces.{table_places};

use graph_ast::Catalog;
use pgq_base::{List, NoMemory};
use std::alloc::Global;
use table_words::TableWord;

fn is_among(places: &[u32], place: u32) -> bool
    ensures { result ≡ list_any (nat_eq place) places.now }
{
    places.iter().any(|other| place == *other)
}

/// The places of the tables that the words name, in the order of the words, and None exactly where a word
/// names no table of the catalog or two words name one.
pub fn table_places(
    alloc: Global,
    catalog: &Catalog,
    words: &[TableWord],
) -> Result<Option<List<u32>>, NoMemory>
    requires { IsValidCatalog catalog.now }
    ensures value { IfOk result (λ places. places ≡ table_places catalog.now words.now) }
    ensures each { IfOk result (λ places. IfSome places (λ places. length places ≡ length words.now)) }
    ensures within { IfOk result (λ places. IfSome places (All (λ place. place < length catalog.now.tables))) }
    ensures apart { IfOk result (λ places. IfSome places IsWithoutRepeats) }
{
    let mut places = List::new(alloc);
    for word in words {
        let Some(place) = catalog.table(&word.table) else {
            return Ok(None);
        };
        if is_among(places.as_slice(), place) {
            return Ok(None);
        }
        places.push(place)?;
    }
    Ok(Some(places))
}
