// The writer of images: each block is filled in its own part of the output.
#![tactic(auto)]

ghost use Rattle.std.specs.Prelude.{◌≡◌, ◌≤◌, length};
ghost use Rattle.area.specs.Areas.{IsPut};
ghost use Rattle.image.specs.Writing.{written, list_refusal};
ghost use Rattle.image.specs.Filling.{Fills, filled};

use image::{BLOCK, BLOCK_RULES};

// FILLS BLOCK k, whatever it held: counts, rules, zeros, numbers, checksum.
fn fill_block(jobs: usize, k: usize, blocks: usize, rules: &[u8], block: &mut [u8])
    requires { Fills jobs rules.now block.old }
    ensures { block.new ≡ filled jobs k blocks rules.now }
{
    let end = 2 + rules.len();
    area::put_two(jobs, rules.len() / 8, 0, block);
    area::put(block, 2, rules);
    area::put_zeros(end, 506, block);
    area::put_number(k, 506, block);
    area::put_number(blocks, 508, block);
    let sum = image::checksum(block);
    area::put_number(sum, 510, block);
}

// WRITES THE IMAGE of a job count and a list of rules, and says how many bytes it has.
pub fn write_blocks(jobs: u32, rules: &[u8], out: &mut [u8]) -> usize
    requires rules_value { list_refusal jobs rules.now ≡ 0 }
    requires rules_in_bounds { length (written jobs rules.now) ≤ length out.old }
    ensures { IsPut 0 (written jobs rules.now) out.old result out.new }
{
    let blocks = (rules.len() / 8).div_ceil(BLOCK_RULES);
    for k in 0..blocks {
        let a = BLOCK * k;
        let e = a + BLOCK;
        let from = 8 * BLOCK_RULES * k;
        let to = (from + 8 * BLOCK_RULES).min(rules.len());
        fill_block(jobs as usize, k, blocks, &rules[from..to], &mut out[a..e]);
    }
    BLOCK * blocks
}
