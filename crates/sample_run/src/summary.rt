ghost use Rattle.std.specs.Prelude.{◌≡◌, ◌++◌, IfOk, OnOk, codes, decimal};
ghost use Rattle.sample_run.specs.SampleRun.{sample_query as query_text, sample_schema as schema_text, sample_summary};

use pgq_base::{List, NoMemory};
use std::alloc::Global;

/// The text of the schema of the generated run.
#[tactic(auto, unfolding(crate::specs::SampleRun::sample_schema))]
pub fn sample_schema() -> &'static [u8]
    ensures { result.now ≡ schema_text }
{
    b"CREATE TABLE person (id INTEGER PRIMARY KEY, name VARCHAR(20), age INTEGER);\nCREATE TABLE knows (id INTEGER PRIMARY KEY, a INTEGER REFERENCES person (id),\n  b INTEGER REFERENCES person (id), since INTEGER);\nCREATE PROPERTY GRAPH g VERTEX TABLES (person)\n  EDGE TABLES (knows SOURCE KEY (a) REFERENCES person (id)\n                     DESTINATION KEY (b) REFERENCES person (id));\n"
}

/// The text of the query of the generated run.
#[tactic(auto, unfolding(crate::specs::SampleRun::sample_query))]
pub fn sample_query() -> &'static [u8]
    ensures { result.now ≡ query_text }
{
    b"SELECT * FROM GRAPH_TABLE (G MATCH ALL SHORTEST (x)-[e]->{1,2}(y) COLUMNS (x.id AS f, y.id AS t))"
}

fn put_line(alloc: Global, text: &mut List<u8>, name: &[u8], count: u64) -> Result<(), NoMemory>
    ensures { OnOk result (text.new ≡ text.old ++ name.now ++ decimal count ++ codes "\n") }
{
    text.extend(name)?;
    text.extend(count.to_string(alloc)?.as_bytes())?;
    text.extend(b"\n")
}

/// The four lines of the generated run: how many vertices and edges there are, how many rows the answer
/// has, and how many of them are different.
#[tactic(auto, unfolding(crate::specs::SampleRun::sample_summary))]
pub fn sample_summary(
    alloc: Global,
    vertices: u64,
    edges: u64,
    rows: u64,
    distinct: u64,
) -> Result<List<u8>, NoMemory>
    ensures { IfOk result (λ text. text ≡ sample_summary vertices edges rows distinct) }
{
    let mut text = List::new(alloc);
    put_line(alloc, &mut text, b"vertices ", vertices)?;
    put_line(alloc, &mut text, b"edges ", edges)?;
    put_line(alloc, &mut text, b"rows ", rows)?;
    put_line(alloc, &mut text, b"distinct ", distinct)?;
    Ok(text)
}
