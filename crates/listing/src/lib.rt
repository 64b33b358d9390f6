// The catalogue of a norm, written: how many prime forms there are, and the one at an index.
#![tactic(auto)]

ghost use Rattle.std.specs.Prelude.{◌++◌, ◌≡◌, ◌≤◌, length};
ghost use Rattle.rules.specs.Places.{table_of};
ghost use Rattle.answer.specs.Answer.{Writes, answered};
ghost use Rattle.words.specs.Words.{word_bytes};
ghost use Rattle.catalogue.specs.Catalogue.{catalogue};
ghost use Rattle.listing.specs.Listing.{row_bytes, listing};

use answer::Refusal;
use engine::refined_rows;
use form_weights::weights;
use norm::Normed;
use nth_row::find_row;
use nth_row::row::Row;
use row_counts::counts;
use rows::Rows;
use words::put_word;

// Writes a count, a byte that says whether there is a row, and the row. If the output is too short, it is left as it was.
fn put_answer(count: u64, row: Option<Row>, out: &mut [u8]) -> Result<u16, Refusal>
    ensures { Writes 0 (word_bytes count ++ row_bytes row) out.old (answered result) out.new }
{
    let jobs = match &row {
        Some(row) => row.as_slice(),
        None => &[],
    };
    if out.len() < 9 + jobs.len() {
        return Err(Refusal::OutputShort);
    }
    put_word(out, 0, count);
    out[8] = u8::from(row.is_some());
    Ok(area::put(out, 9, jobs) as u16)
}

// Writes the number of prime forms of a norm and the one at an index. The prime rows are worked out in the area.
pub fn list(
    table: &Normed,
    norm: usize,
    index: u64,
    out: &mut [u8],
    area: &mut [u8],
) -> Result<u16, Refusal>
    requires norm_bound { norm ≤ 12 }
    requires area_len { length area.old ≡ 24576 }
    ensures { Writes 0 (listing (catalogue (table_of table.now.jobs table.now.rules.now) norm) index) out.old (answered result) out.new }
{
    let lens = refined_rows(table, area);
    let rows = Rows {
        bytes: &area[..12288],
        lens: &lens,
    };
    let weights = weights(table, &rows);
    let weights = &weights[..table.jobs];
    let counts = counts(weights, norm);
    put_answer(counts[norm], find_row(weights, &counts, norm, index), out)
}
