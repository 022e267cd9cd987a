//! The target of a request, or why it has none.
ghost use Rattle.std.specs.Prelude.{◌≡◌, true, IfErr};
ghost use Rattle.std.specs.Str.{IsUtf8};
ghost use Rattle.station_http.specs.Refusals.{is_refusal};
ghost use Rattle.station_http.specs.Targets.{target_of};

use crate::fault::HttpFault;
use http_routes::{Routes, Target};
use std::str;

/// The target of a method and a path.
pub fn target_for(routes: &Routes, method: &[u8], path: &[u8]) -> Result<Target, HttpFault>
    requires { IsUtf8 path.now }
    ensures target { result ≡ target_of method.now path.now }
    ensures refused { IfErr result (λ fault. is_refusal fault ≡ true) }
{
    let Ok(path) = str::from_utf8(path) else {
        unreachable!()
    };
    let Some(target) = routes.target(path) else {
        return Err(HttpFault::NoRoute);
    };
    if target.has_method(method) {
        return Ok(target);
    }
    Err(HttpFault::BadMethod)
}
