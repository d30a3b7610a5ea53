//! What the tests share: layers, and the table of the example session.
ghost use Rattle.std.specs.Prelude.{◌≡◌};

use stripe_plan::{LayerSize, Table};

/// A layer of so many bytes, which needs so many packets.
pub fn layer(length: u32, need: u16) -> LayerSize
    ensures { result ≡ record { length = length; need = need } }
{
    LayerSize { length, need }
}

/// Three layers, each of so many bytes and with this need.
pub fn layers_of(sizes: [(u32, u16); 3]) -> [LayerSize; 3] {
    let [first, second, third] = sizes;
    [
        layer(first.0, first.1),
        layer(second.0, second.1),
        layer(third.0, third.1),
    ]
}

/// Whether these are the tables of the example session.
pub fn is_example(tables: &[Table]) -> bool {
    is_table(tables, 6, [(46, 2), (7, 3), (15, 5)])
}

/// Whether there is one table, with these packets, and layers of these lengths and needs.
pub fn is_table(tables: &[Table], packets: u16, sizes: [(u32, u16); 3]) -> bool {
    match tables {
        [table] => table.packets() == packets && table.layers() == layers_of(sizes).as_slice(),
        _ => false,
    }
}
