// The chroma vector of a macroblock, of one vector and of four.

pub fn chroma_vector(call: &[u8]) -> bool {
    let mut vector = [-1515870811i32; 2];
    let reply = hencouch::chroma::hencouch_chroma_vector(
        stored::word(call, 0),
        stored::signed(call, 1),
        stored::signed(call, 2),
        &mut vector,
    );
    stored::same(call, reply, stored::area_same(call, 3, &vector))
}

pub fn chroma_vector_4mv(call: &[u8]) -> bool {
    let mode = stored::word(call, 0);
    let vectors = crate::luma::eight(stored::signeds(call, 1));
    let mut vector = [-1515870811i32; 2];
    let reply = hencouch::chroma::hencouch_chroma_vector_4mv(mode, &vectors, &mut vector);
    stored::same(call, reply, stored::area_same(call, 3, &vector))
}
