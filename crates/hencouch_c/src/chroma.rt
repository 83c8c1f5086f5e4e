// The chroma vector of a macroblock, in the mode of a number.
ghost use Rattle.std.specs.Prelude.{◌≡◌};
ghost use Rattle.refusal.specs.Number.{code_of};
ghost use Rattle.refusal.specs.Reply.{written};
ghost use Rattle.prediction.specs.declared.PvopMbMotion.TheVariants.{OneMv};
ghost use Rattle.areas.specs.Numbers.{vector_of, four_motion};
ghost use Rattle.areas.specs.Search.{vector_area};
ghost use Rattle.predicting.specs.Chroma.{chroma_in};

// Of one vector: 2, 8.
#[unsafe(no_mangle)]
pub extern "C" fn hencouch_chroma_vector(
    mode: u32,
    mv_x: i32,
    mv_y: i32,
    vector: &mut [i32; 2],
) -> u8
    ensures { let told = chroma_in mode (OneMv (vector_of mv_x mv_y)) in
        (result ≡ code_of told) × (vector.new ≡ written told vector_area vector.old) }
{
    hencouch::chroma::hencouch_chroma_vector(mode, mv_x, mv_y, vector)
}

// Of four vectors, one for each 8 x 8 block: 2, 8.
#[unsafe(no_mangle)]
pub extern "C" fn hencouch_chroma_vector_4mv(
    mode: u32,
    vectors: &[i32; 8],
    vector: &mut [i32; 2],
) -> u8
    ensures { let told = chroma_in mode (four_motion vectors.now) in
        (result ≡ code_of told) × (vector.new ≡ written told vector_area vector.old) }
{
    hencouch::chroma::hencouch_chroma_vector_4mv(mode, vectors, vector)
}
