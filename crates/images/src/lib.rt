// The calls that read and write images.
#![tactic(auto)]

ghost use Rattle.rules.specs.Places.{table_of, table_bytes};
ghost use Rattle.rules.specs.Lists.{GoodList};
ghost use Rattle.answer.specs.Answer.{answered, Writes};
ghost use Rattle.images.specs.ImageCalls.{Read, Written};

use answer::Refusal;

// Writes the table of a list of rules: its job count in one byte, then the rules, or refuses by 10. The rules are a parameter of their own: of bytes
// that are lent in a struct the check does not know that they are below 256, which the table written asks.
fn write_table(jobs: usize, rules: &[u8], out: &mut [u8]) -> Result<u16, Refusal>
    requires { GoodList jobs rules.now }
    ensures { Writes 0 (table_bytes (table_of jobs rules.now)) out.old (answered result) out.new }
{
    if out.len() < 1 + rules.len() {
        return Err(Refusal::OutputShort);
    }
    out[0] = jobs as u8;
    Ok(area::put(out, 1, rules) as u16)
}

// The table of an image: the job count in one byte, then the rules, 8 bytes each.
pub fn read_image(image: &[u8], out: &mut [u8]) -> Result<u16, Refusal>
    ensures { Read image.now out.old (answered result) out.new }
{
    let held = table::read(image)?;
    let table = held.normed();
    write_table(table.jobs, table.rules, out)
}

// The image of a job count and a list of 8-byte rules, each laid out as a place of the image.
pub fn write_image(jobs: u32, rules: &[u8], out: &mut [u8]) -> Result<u16, Refusal>
    ensures { Written jobs rules.now out.old (answered result) out.new }
{
    table::check_rules(jobs, rules)?;
    if out.len() < 512 * ((rules.len() / 8 + 62) / 63) {
        return Err(Refusal::OutputShort);
    }
    Ok(image_write::write_blocks(jobs, rules, out) as u16)
}
