// The cosines as constants: the doubles nearest the decimals of rule T4, and the table of its cosines.

pub const C0: f64 = 1.0;

const C1: f64 = 0.98078528040323044913;

const C2: f64 = 0.92387953251128675613;

const C3: f64 = 0.83146961230254523708;

pub const C4: f64 = 0.70710678118654752440;

const C5: f64 = 0.55557023301960222474;

const C6: f64 = 0.38268343236508977173;

const C7: f64 = 0.19509032201612826785;

// The entry for u, x at u * 8 + x.
pub const TABLE: [f64; 64] = [
    C0, C0, C0, C0, C0, C0, C0, C0, C1, C3, C5, C7, -C7, -C5, -C3, -C1, C2, C6, -C6, -C2, -C2, -C6,
    C6, C2, C3, -C7, -C1, -C5, C5, C1, C7, -C3, C4, -C4, -C4, C4, C4, -C4, -C4, C4, C5, -C1, C7,
    C3, -C3, -C7, C1, -C5, C6, -C2, C2, -C6, -C6, C2, -C2, C6, C7, -C5, C3, -C1, C1, -C3, C5, -C7,
];

// The same with rows and columns swapped: the entry for u, x at x * 8 + u.
pub const SWAPPED: [f64; 64] = [
    C0, C1, C2, C3, C4, C5, C6, C7, C0, C3, C6, -C7, -C4, -C1, -C2, -C5, C0, C5, -C6, -C1, -C4, C7,
    C2, C3, C0, C7, -C2, -C5, C4, C3, -C6, -C1, C0, -C7, -C2, C5, C4, -C3, -C6, C1, C0, -C5, -C6,
    C1, -C4, -C7, C2, -C3, C0, -C3, C6, C7, -C4, C1, -C2, C5, C0, -C1, C2, -C3, C4, -C5, C6, -C7,
];
