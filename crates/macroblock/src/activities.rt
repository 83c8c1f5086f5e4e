// How far 256 samples lie from their mean.
ghost use Rattle.std.specs.Prelude.{◌≡◌, ◌≤◌, length};
ghost use Rattle.macroblock.specs.Activities.{mean_of, activity_of};

// The mean of 256 samples without its fraction.
#[tactic(auto, using(basis::proofs::Sums::summed_end))]
fn mean(block: &[u8]) -> u32
    requires { length block.now ≡ 256 }
    ensures { (result ≡ mean_of block.now) × (result ≤ 255) }
{
    let mut sum: u32 = 0;
    for sample in block {
        sum += u32::from(*sample);
    }
    sum / 256
}

#[tactic(auto, using(basis::proofs::Sums::summed_end), unfolding(crate::specs::Activities::activity_of))]
pub fn activity(block: &[u8]) -> u32
    requires { length block.now ≡ 256 }
    ensures { result ≡ activity_of block.now }
{
    let middle = mean(block);
    let mut sum: u32 = 0;
    for sample in block {
        sum += u32::from(*sample).abs_diff(middle);
    }
    sum
}
