use crate::catalog_of_text;
use sample_run::{sample_catalog, sample_schema};
use std::test::Fail;

#[test]
fn the_generated_schema_stands_for_its_catalog(rt: HostRuntime) -> Result<(), Fail> {
    let text = sample_schema();
    if text.len() > 1_048_576 {
        return Err("the text is too large")?;
    }
    let Ok(read) = catalog_of_text(rt.alloc(), text) else {
        return Err("the text is refused")?;
    };
    let made = sample_catalog(rt.alloc())?;
    let shown = format!(in rt.alloc(); "{read:?}")?;
    let due = format!(in rt.alloc(); "{made:?}")?;
    assert_eq!(rt; shown.as_str(), due.as_str());
    Ok(())
}
