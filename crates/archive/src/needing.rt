// Row need: so many rows are always enough.
ghost use Rattle.std.specs.Prelude.{◌≡◌, ◌*◌, ◌≤◌, if◌then◌else◌, nat_eq, nat_lt};
ghost use Rattle.history.specs.RowNeed.{first_largest, product_but, row_need};

use space::Space;

// The one of two objectives with the larger extent; the first where they are equal.
fn larger<S: Space>(space: &S, i: usize, k: usize) -> usize
    ensures { result ≡ (if nat_lt ((S.Space.meaning space.now).extent i) ((S.Space.meaning space.now).extent k) then k else i) }
{
    if space.extent(i) < space.extent(k) {
        k
    } else {
        i
    }
}

// Of the first n objectives, the first with a largest extent.
fn first_largest<S: Space>(space: &S, n: usize) -> usize
    ensures { result ≡ first_largest (S.Space.meaning space.now) n }
{
    let mut largest = 0;
    // by a loop: of a `fold` over a range the proof does not learn what it came to
    for k in 0..n {
        largest = larger(space, largest, k);
    }
    largest
}

// A product of extents with that of objective k, unless it is left out. No product of five extents is larger than 2^50.
fn times<S: Space>(space: &S, product: u64, out: usize, k: usize) -> u64
    requires { product ≤ 1125899906842624 }
    ensures { result ≡ (if nat_eq k out then product else product * (S.Space.meaning space.now).extent k) }
{
    if k == out {
        product
    } else {
        product * u64::from(space.extent(k))
    }
}

// The product of the first n extents, with one left out.
fn product_but<S: Space>(space: &S, out: usize, n: usize) -> u64
    requires { n ≤ 6 }
    ensures { result ≡ product_but (S.Space.meaning space.now) out n }
{
    let mut product = 1;
    // by a loop: that the `product` of a chain fits its type is not proved
    for k in 0..n {
        product = times(space, product, out, k);
    }
    product
}

// With so many rows no trial of this space is ever denied for want of one: the product of all extents but one largest.
pub fn row_need<S: Space>(space: &S) -> u64
    ensures { result ≡ row_need (S.Space.meaning space.now) }
{
    let objectives = space.objectives();
    product_but(space, first_largest(space, objectives), objectives)
}
