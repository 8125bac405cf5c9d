//! The limits, pinned by laws: functions without a body, whose contracts are the laws.
ghost use Rattle.std.specs.Prelude.{◌≡◌};
ghost use Rattle.lab_keys.specs.declared.net.TheConstants.{ROUTER_LIMIT, LINK_LIMIT};

/// The limits in numbers.
pub fn limit_laws()
    ensures routers { ROUTER_LIMIT ≡ 1024 }
    ensures links { LINK_LIMIT ≡ 4096 }
{}
