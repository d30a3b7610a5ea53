//! Layers of rows of tests.
use crate::layer;
use std::alloc::{AllocError, Global};
use stripe_plan::LayerSize;

/// The lengths and needs of layers.
pub type Sizes = &'static [(u32, u16)];

/// Layers of these lengths and needs.
pub fn sized(alloc: Global, sizes: Sizes) -> Result<Vec<LayerSize>, AllocError> {
    let mut layers = Vec::new(alloc);
    for (length, need) in sizes {
        layers.push(layer(*length, *need))?;
    }
    Ok(layers)
}
