//! From the filters of a stack to the bundle that means what they answer together.
ghost use Rattle.std.specs.Prelude.{◌≡◌, ℕ, List, Some, IfOk, IfErr, map, slice_get, string_bytes};
ghost use Rattle.std.specs.List.{AllZip};
ghost use Rattle.recover.specs.Recovered.{IsRecovered};
ghost use Rattle.combine.specs.Stack.{IsOfStack};
ghost use Rattle.combine.specs.Uncombined.{IsUnsaidAt, IsUnstacked};

use crate::combined::combine;
use crate::uncombined::Uncombined;
use machines::Arch;
use recover::{Unsaid, recover};
use std::alloc::Global;
use together::Way;

// The bundle whose profile is the filter at a place.
fn bundle_of(
    alloc: Global,
    native: Arch,
    filter: &[u8],
    place: usize,
) -> Result<Vec<u8>, Uncombined>
    ensures recovered { IfOk result (λ bundle. IsRecovered native bundle.items filter.now) }
    ensures reason { (filters : List (List ℕ)) → slice_get filters place ≡ Some filter.now → IfErr result (IsUnsaidAt native filters) }
{
    match recover(alloc, native, filter) {
        Ok(bundle) => Ok(bundle.into_bytes()),
        Err(why) => match why.unsaid {
            Unsaid::OutOfMemory => Err(Uncombined::OutOfMemory),
            unsaid => Err(Uncombined::Filter(place, unsaid)),
        },
    }
}

// The bundles whose profiles are filters.
fn bundles_of(alloc: Global, native: Arch, filters: &[Vec<u8>]) -> Result<Vec<Vec<u8>>, Uncombined>
    ensures recovered { IfOk result (λ bundles. AllZip (λ filter bundle. IsRecovered native bundle filter) (map (λ f. f.items) filters.now)
        (map (λ b. b.items) bundles.items)) }
    ensures reason { IfErr result (IsUnsaidAt native (map (λ f. f.items) filters.now)) }
{
    let mut bundles = Vec::new(alloc);
    for filter in filters {
        let place = bundles.len();
        bundles.push(bundle_of(alloc, native, filter, place)?)?;
    }
    Ok(bundles)
}

/// The bundle whose profile says of each call record the verdict that a stack of filters gives it, or why there is none. The filters were
/// loaded in this order.
pub fn combine_filters(
    alloc: Global,
    native: Arch,
    filters: &[Vec<u8>],
) -> Result<String, Uncombined>
    ensures stacked { IfOk result (λ made. IsOfStack native (map (λ f. f.items) filters.now) (string_bytes made)) }
    ensures reason { IfErr result (IsUnstacked native (map (λ f. f.items) filters.now)) }
{
    let bundles = bundles_of(alloc, native, filters)?;
    combine(alloc, native, Way::Strictest, &bundles)
}
