//! Steps of a search.
ghost use Rattle.std.specs.Prelude.{◌≡◌, Option, Some, None};
ghost use Rattle.cg_route.specs.Layers as spec;

/// A way on from a resource to the end of a search.
#[derive(Clone, Copy)]
pub(crate) struct Step {
    /// The price of the way.
    pub price: u128,
    /// The next resource.
    pub next: u32,
}

/// A way on through a resource at a time.
#[derive(Clone, Copy)]
pub(crate) struct Way {
    /// The price from the resource on.
    pub onward: u128,
    /// The price including the toll, which is due if the value doesn't already come to the resource by this link.
    pub through: u128,
    /// Whether the value is already on the resource at that time.
    pub shared: bool,
}

/// Returns the better of `found` and the way to the resource `next` for `price`: the cheaper, and of equal ones the one
/// to the lower number.
pub(crate) fn better(found: Option<Step>, price: u128, next: u32) -> Option<Step>
    ensures { result ≡ spec.better found price next }
{
    match found {
        Some(step) => {
            if price < step.price || (price == step.price && next < step.next) {
                Some(Step { price, next })
            } else {
                Some(step)
            }
        }
        None => Some(Step { price, next }),
    }
}

/// The price that denotes no way, which exceeds that of any way.
pub(crate) const NO_WAY: u128 = u128::MAX;

/// Returns the way to the resource `next` for `price`; `None` if the price is `NO_WAY`.
pub(crate) fn held(price: u128, next: u32) -> Option<Step>
    ensures { result ≡ spec.held price next }
{
    if price == NO_WAY {
        None
    } else {
        Some(Step { price, next })
    }
}
