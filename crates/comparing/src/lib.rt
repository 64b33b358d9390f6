// Two plans compared as the rows of their jobs write them out. What the plans begin with in common is passed over, the rest of the right
// one is written out in an area beside the rows, and the rows of the left one are compared with what stands there.
#![tactic(auto)]

ghost use Rattle.std.specs.Prelude.{◌≡◌, ◌++◌, ◌+◌, ◌≤◌, ◌↔◌, IsTrue, length, take};
ghost use Rattle.bpa.specs.Method.{expand, first_difference};
ghost use Rattle.rows.specs.Answers.{meaning};
ghost use Rattle.rows.specs.Region.{row, Readable, Comparable, old_half};
ghost use Rattle.rows.specs.Rows.{rows_of};
ghost use Rattle.form.specs.Written.{Tells};
ghost use Rattle.comparing.specs.Comparisons.{Common, WrittenOut};

use rows::{Difference, Rows};

// How many places two rows are equal from the front. Steps of 16 places are compared at once.
pub fn common(left: &[u8], right: &[u8]) -> usize
    ensures { Common left.now right.now result }
{
    let end = left.len().min(right.len());
    let mut i = 0;
    while 16 <= end - i && left[i..i + 16] == right[i..i + 16] {
        i += 16;
    }
    for k in i..end {
        if left[k] != right[k] {
            return k;
        }
    }
    end
}

// Copies a row of so many places. A short one is copied as 16 bytes, whatever its length: what then stands behind it is left open.
fn copy_row(from: &[u8], len: usize, out: &mut [u8], to: usize)
    requires places { (16 ≤ length from.now) × (len ≤ length from.now) }
    requires room { to + len ≤ length out.old }
    ensures { take (to + len) out.new ≡ take to out.old ++ take len from.now }
{
    if len <= 16 && 16 <= out.len() - to {
        area::put(out, to, &from[..16]);
    } else {
        area::put(out, to, &from[..len]);
    }
}

// The rows of a plan's jobs one behind the other. It gives the place behind them.
fn write_out(rows: &Rows, plan: &[u8], out: &mut [u8]) -> usize
    requires readable { Readable rows.now.lens.now rows.now.bytes.now plan.now }
    requires room { length (expand (rows_of rows.now) plan.now) ≤ length out.old }
    ensures { WrittenOut (expand (rows_of rows.now) plan.now) result out.new }
{
    let mut end = 0;
    for &job in plan {
        let job = usize::from(job);
        let len = rows.len_of(job);
        copy_row(&rows.bytes[512 * job..], len, out, end);
        end += len;
    }
    end
}

// How many places a row and jobs may be passed over at once: as many as both have, if these are many and equal.
fn leap(row: &[u8], jobs: &[u8]) -> usize
    ensures { Common row.now jobs.now result }
{
    let reach = row.len().min(jobs.len());
    if 16 <= reach && row[..reach] == jobs[..reach] {
        return reach;
    }
    0
}

// The leftmost difference of a plan, each of its jobs written out as its row, and jobs as they stand.
fn difference(rows: &Rows, plan: &[u8], flat: &[u8]) -> Difference
    requires { Readable rows.now.lens.now rows.now.bytes.now plan.now }
    ensures { meaning result ≡ first_difference (expand (rows_of rows.now) plan.now) flat.now }
{
    let mut rest = flat;
    'places: {
        for &job in plan {
            let row = rows.row(usize::from(job));
            let reach = row.len().min(rest.len());
            for k in leap(row, rest)..reach {
                let x = row[k];
                let y = rest[k];
                if x != y {
                    break 'places Difference::Differ(x, y);
                }
            }
            if reach < row.len() {
                break 'places Difference::Ends;
            }
            rest = &rest[reach..];
        }
        if rest.is_empty() {
            break 'places Difference::Equal;
        }
        Difference::Ends
    }
}

// Whether the rows of a plan's jobs one behind the other are these jobs.
fn is_written(rows: &Rows, plan: &[u8], flat: &[u8]) -> bool
    requires { Readable rows.now.lens.now rows.now.bytes.now plan.now }
    ensures { IsTrue result ↔ (expand (rows_of rows.now) plan.now ≡ flat.now) }
{
    matches!(difference(rows, plan, flat), Difference::Equal)
}

// Whether two plans are the same as the rows write them out. The area is worked in.
pub fn equal_plans(rows: &Rows, area: &mut [u8], left: &[u8], right: &[u8]) -> bool
    requires comparable { Comparable rows.now.lens.now rows.now.bytes.now left.now right.now }
    requires right_len_bound { length (expand (rows_of rows.now) right.now) ≤ length area.old }
    ensures { IsTrue result ↔ (expand (rows_of rows.now) left.now ≡ expand (rows_of rows.now) right.now) }
{
    let n = common(left, right);
    let end = write_out(rows, &right[n..], area);
    is_written(rows, &left[n..], &area[..end])
}

// The same, with the rows in the first half of the area. The second half is worked in.
#[tactic(auto, unfolding(rows::specs::Region::old_half))]
pub fn same_plans(area: &mut [u8], lens: &[u16; 24], left: &[u8], right: &[u8]) -> bool
    requires comparable { Comparable lens.now (old_half area.old) left.now right.now }
    requires area_len { length area.old ≡ 24576 }
    requires right_len_bound { length (expand (row lens.now (old_half area.old)) right.now) ≤ 12288 }
    ensures { Tells result (expand (row lens.now (old_half area.old)) left.now) (expand (row lens.now (old_half area.old)) right.now) }
{
    let (bytes, rest) = area.split_at_mut(12288);
    let rows = Rows {
        bytes: bytes,
        lens: lens,
    };
    equal_plans(&rows, rest, left, right)
}
