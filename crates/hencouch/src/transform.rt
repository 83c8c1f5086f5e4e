// The transform.
ghost use Rattle.std.specs.Prelude.{◌≡◌, length};
ghost use Rattle.refusal.specs.Number.{code_of};
ghost use Rattle.refusal.specs.Reply.{done};
ghost use Rattle.fdct.specs.Block.{coefficients};
ghost use Rattle.fdct.specs.Reply.{dct_reply};

// 12, 13.
pub fn hencouch_forward_dct_8x8(residual: &[i32], out: &mut [i32]) -> u8
    ensures { let reply = dct_reply residual.now (length out.old) in
        (result ≡ code_of reply) × (out.new ≡ done reply (coefficients residual.now) out.old) }
{
    let reply = fdct::forward_dct_8x8(residual, out);
    refusal::code(reply)
}
