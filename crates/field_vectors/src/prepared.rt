//! A factor of a field, prepared for products on vectors.
ghost use Rattle.std.specs.Prelude.{◌≡◌, ℕ, ◌+◌, ◌<◌, ◌≤◌, List, All, length, map, replicate, slice_index_or};
ghost use Rattle.std.specs.Simd.Lanes.{zip2};
ghost use Rattle.field_elements.specs.Field.{IsField, Operations};

/// A factor of a field, prepared for products on vectors of 32 elements. All that is done along rows calls these, so that it stands
/// once for all fields.
pub trait Prepared {
    /// An element of the field.
    type Elem: Copy;

    /// 32 elements.
    type Vector: Copy;

    /// 32 elements as products take them: a vector, or vectors of their bytes.
    type Parts: Copy;

    /// Which values are elements.
    ghost is_element: { Self.Elem → Type 0 };

    /// What the field computes.
    ghost ops: { Operations Self.Elem };

    /// The factor itself.
    ghost factor: { Self → Self.Elem };

    /// The elements of a vector.
    ghost lanes: { Self.Vector → List Self.Elem };

    /// The elements of parts.
    ghost joined: { Self.Parts → List Self.Elem };

    /// Does nothing: it says that the factor is an element, and each value in a row.
    fn elements(&self, row: &[Self::Elem])
        ensures factor { is_element (factor self.now) }
        ensures row { All is_element row.now };

    /// The elements from `at` on, and zeros past them.
    fn load(rows: &[Self::Elem], at: usize) -> Self::Vector
        requires { at ≤ length rows.now }
        ensures long { length (lanes result) ≡ 32 }
        ensures lanes { (c : ℕ) → c < 32
            → slice_index_or (lanes result) c ops.nought ≡ slice_index_or rows.now (at + c) ops.nought };

    /// Writes the first lanes.
    fn unload(v: Self::Vector, into: &mut [Self::Elem])
        requires { length into.old ≤ 32 }
        ensures { (c : ℕ) → c < length into.old
            → slice_index_or into.new c ops.nought ≡ slice_index_or (lanes v) c ops.nought };

    /// Writes the lanes from `at` on, as far as there are elements.
    fn store(v: Self::Vector, rows: &mut [Self::Elem], at: usize)
        requires long { length (lanes v) ≡ 32 }
        requires place { at ≤ length rows.old }
        ensures inside { (c : ℕ) → c < 32 → at + c < length rows.old
            → slice_index_or rows.new (at + c) ops.nought ≡ slice_index_or (lanes v) c ops.nought }
        ensures before { (i : ℕ) → i < at
            → slice_index_or rows.new i ops.nought ≡ slice_index_or rows.old i ops.nought }
        ensures behind { (i : ℕ) → at + 32 ≤ i
            → slice_index_or rows.new i ops.nought ≡ slice_index_or rows.old i ops.nought };

    /// The sums of two vectors.
    fn add(a: Self::Vector, b: Self::Vector) -> Self::Vector
        ensures { lanes result ≡ zip2 ops.plus (lanes a) (lanes b) };

    /// Zeros.
    fn zeros() -> Self::Parts
        ensures { joined result ≡ replicate 32 ops.nought };

    /// The elements as products take them.
    fn split(v: Self::Vector) -> Self::Parts
        ensures { joined result ≡ lanes v };

    /// The vector of the elements.
    fn join(parts: Self::Parts) -> Self::Vector
        ensures { lanes result ≡ joined parts };

    /// The products of the elements with the factor.
    fn times(&self, parts: Self::Parts) -> Self::Parts
        ensures { joined result ≡ map (ops.times (factor self.now)) (joined parts) };

    /// One step of Horner's rule in each lane: the products, added to a row.
    fn step(&self, sums: Self::Parts, row: Self::Vector) -> Self::Parts
        ensures { joined result ≡ zip2 ops.plus (lanes row) (map (ops.times (factor self.now)) (joined sums)) };

    /// The laws of the field.
    ghost field: { IsField is_element ops };
}

/// The products of each lane with the factor.
#[inline(always)]
pub(crate) fn products<P: Prepared>(by: &P, v: P::Vector) -> P::Vector
    ensures { P.lanes result ≡ map (P.ops.times (P.factor by.now)) (P.lanes v) }
{
    P::join(by.times(P::split(v)))
}
