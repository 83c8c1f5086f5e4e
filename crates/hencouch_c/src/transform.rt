// The transform.
ghost use Rattle.std.specs.Prelude.{◌≡◌, length};
ghost use Rattle.refusal.specs.Number.{code_of};
ghost use Rattle.refusal.specs.Reply.{done};
ghost use Rattle.fdct.specs.Block.{coefficients};
ghost use Rattle.fdct.specs.Reply.{dct_reply};

// 12, 13.
#[unsafe(no_mangle)]
pub extern "C" fn hencouch_forward_dct_8x8(residual: &[i32], out: &mut [i32]) -> u8
    ensures { let reply = dct_reply residual.now (length out.old) in
        (result ≡ code_of reply) × (out.new ≡ done reply (coefficients residual.now) out.old) }
{
    hencouch::transform::hencouch_forward_dct_8x8(residual, out)
}
