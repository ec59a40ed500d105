//! The integers modulo 65537 and modulo 257, against remainders by hand.
use super::figures::Operation::{Difference, Double, Node, Opposite, Power, Product, Square, Sum};
use super::figures::{Figures, assert_figures};
use sc_field::Field;
use sc_small_fields::{F257, F65537};

// 2 * 32769 is 65538, and 3 * 21846 is 65538 too.
static MODULO_65537: Figures = Figures {
    constants: (65537, 0, 1, 2),
    results: &[
        (Sum(40000, 30000), 4463),
        (Sum(1, 65536), 0),
        (Sum(1, 1), 2),
        (Difference(2, 3), 65536),
        (Difference(3, 2), 1),
        (Opposite(5), 65532),
        (Opposite(0), 0),
        (Double(40000), 14463),
        (Node(7), 7),
        (Product(300, 300), 24463),
        (Product(65536, 65536), 1),
        (Product(65536, 2), 65535),
        (Product(256, 256), 65536),
        (Product(54321, 12345), 18161),
        (Square(300), 24463),
        (Power(2, 16), 65536),
        (Power(2, 32), 1),
        (Power(0, 0), 1),
        (Power(0, 5), 0),
        (Power(12345, 67), 52501),
    ],
    inverses: &[
        (2, Some(32769)),
        (3, Some(21846)),
        (12345, Some(31651)),
        (65536, Some(65536)),
        (1, Some(1)),
        (0, None),
    ],
    equal: &[(0, 1, false), (65536, 65536, true)],
};

static MODULO_257: Figures = Figures {
    constants: (257, 0, 1, 2),
    results: &[
        (Sum(200, 100), 43),
        (Sum(1, 256), 0),
        (Sum(256, 256), 255),
        (Sum(1, 1), 2),
        (Difference(123, 234), 146),
        (Difference(234, 123), 111),
        (Difference(16, 16), 0),
        (Opposite(100), 157),
        (Opposite(0), 0),
        (Double(200), 143),
        (Product(200, 100), 211),
        (Product(16, 16), 256),
        (Product(256, 256), 1),
        (Product(123, 234), 255),
        (Product(255, 2), 253),
        (Product(77, 0), 0),
        (Square(16), 256),
        (Power(3, 10), 196),
        (Power(2, 8), 256),
        (Power(2, 16), 1),
        (Power(5, 256), 1),
        (Power(123, 45), 176),
        (Power(250, 1000), 136),
        (Power(0, 0), 1),
        (Power(0, 7), 0),
    ],
    inverses: &[
        (1, Some(1)),
        (2, Some(129)),
        (3, Some(86)),
        (16, Some(241)),
        (100, Some(18)),
        (128, Some(255)),
        (200, Some(9)),
        (256, Some(256)),
        (0, None),
    ],
    equal: &[(0, 1, false), (256, 256, true)],
};

#[test]
fn integers_modulo_65537(rt: HostRuntime) {
    assert_figures::<F65537, HostRuntime>(&rt, &MODULO_65537);
    assert!(rt; super::fifteenth::<F65537>().index() == 15);
}

#[test]
fn integers_modulo_257(rt: HostRuntime) {
    assert_figures::<F257, HostRuntime>(&rt, &MODULO_257);
}
