ghost use Rattle.std.specs.Prelude.{◌≡◌, ◌<◌};
ghost use Rattle.hwp_script.specs.Draws.{after, drawn, word};

use rand_core::utils::NextWord;
use rand_pcg::Lcg64Xsh32;

/// The next word of the generator.
pub(crate) fn draw_word(rng: &mut Lcg64Xsh32) -> u32
    ensures word { result ≡ word rng.old }
    ensures after { rng.new ≡ after rng.old }
{
    rng.next_word()
}

/// A number below a bound: the rest of the next word.
pub(crate) fn draw(rng: &mut Lcg64Xsh32, bound: u8) -> u8
    requires some { 0 < bound }
    ensures drawn { result ≡ drawn bound rng.old }
    ensures after { rng.new ≡ after rng.old }
    ensures below { result < bound }
{
    (draw_word(rng) % u32::from(bound)) as u8
}
