//! The texts of a query's rows.

ghost use Rattle.std.specs.Prelude.{◌≡◌, ◌⊎◌, [], ◌∷◌, true, IfOk, IfErr, string_bytes};
ghost use Rattle.sqlite.specs.Order.{column};
ghost use Rattle.sqlite.specs.declared.types.Value.TheVariants.{Text};
ghost use Rattle.shelf_database.specs.Asks.{ShowTexts};
ghost use Rattle.shelf_database.specs.Faults.{HasNoTextIn, IsNoText, LacksText};
ghost use Rattle.shelf.specs.declared.faults.ShelfFault.{ShelfFault};
ghost use Rattle.shelf.specs.Maps.{Answers, no_refusal};
ghost use Rattle.shelf.specs.Entries.{entry_texts};

use crate::database::fault;
use shelf::{Entry, ShelfFault};
use sqlite::Row;
use std::alloc::Global;

/// The text in a column.
pub(crate) fn text_at(row: &Row, at: usize) -> Result<String, ShelfFault>
    ensures text { IfOk result (λ text. column row.now at ≡ Text (string_bytes text)) }
    ensures named { IfErr result (λ fault. (fault ≡ ShelfFault.NoMemory) ⊎ (fault ≡ ShelfFault.StoreFault)) }
    ensures fault { IfErr result (λ fault. fault ≡ ShelfFault.StoreFault → IsNoText (column row.now at)) }
{
    match row.get::<String>(at) {
        Ok(text) => Ok(text),
        Err(error) => Err(fault(error)),
    }
}

/// The text in the first column of each row.
pub(crate) fn texts_of(alloc: Global, rows: &[Row]) -> Result<Vec<String>, ShelfFault>
    ensures texts { IfOk result (λ texts. ShowTexts 0 rows.now string_bytes texts.items) }
    ensures answers { Answers (LacksText (0 ∷ []) (λ _. true) rows.now) no_refusal result }
{
    let mut texts = Vec::new(alloc);
    for row in rows {
        texts.push(text_at(row, 0)?)?;
    }
    Ok(texts)
}

/// The texts in the first two columns.
fn entry_of(row: &Row) -> Result<Entry, ShelfFault>
    ensures key { IfOk result (λ e. column row.now 0 ≡ Text (entry_texts e).0) }
    ensures value { IfOk result (λ e. column row.now 1 ≡ Text (entry_texts e).1) }
    ensures named { IfErr result (λ fault. (fault ≡ ShelfFault.NoMemory) ⊎ (fault ≡ ShelfFault.StoreFault)) }
    ensures fault { IfErr result (λ fault. fault ≡ ShelfFault.StoreFault → HasNoTextIn (0 ∷ 1 ∷ []) row.now) }
{
    let key = text_at(row, 0)?;
    let value = text_at(row, 1)?;
    Ok(Entry { key, value })
}

/// The texts in the first two columns of each row.
pub(crate) fn entries_of(alloc: Global, rows: &[Row]) -> Result<Vec<Entry>, ShelfFault>
    ensures keys { IfOk result (λ entries. ShowTexts 0 rows.now (λ e. (entry_texts e).0) entries.items) }
    ensures values { IfOk result (λ entries. ShowTexts 1 rows.now (λ e. (entry_texts e).1) entries.items) }
    ensures answers { Answers (LacksText (0 ∷ 1 ∷ []) (λ _. true) rows.now) no_refusal result }
{
    let mut entries = Vec::new(alloc);
    for row in rows {
        entries.push(entry_of(row)?)?;
    }
    Ok(entries)
}
