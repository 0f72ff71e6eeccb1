//! Laws of configurations.
ghost use Rattle.std.specs.Prelude.{◌≡◌, ◌≢◌, List, ℕ, None, Some, true};
ghost use Rattle.std.specs.List.{All};
ghost use Rattle.usp_jws.specs.Keys.{KeyValue, first_repeat, key_named};
ghost use Rattle.usp_jws.specs.Letters.{is_kid};
ghost use Rattle.usp_package.specs.Name.{is_attr_name};
ghost use Rattle.usp_conf.specs.Readings.{Configures, RefusesConf};
ghost use Rattle.usp_conf.specs.Values.{ConfValue};
ghost use Rattle.usp_conf.specs.declared.fault.ConfFault.{ConfFault};
ghost use Rattle.usp_conf.specs.declared.fault.ConfFault.TheVariants.{NoMemory};
ghost use Rattle.usp_conf.specs.declared.limits.TheConstants.{MAX_EXTENSIONS, MAX_IDENTITIES, MAX_PREFIX};
ghost use Rattle.usp_nonce.specs.declared.limits.TheConstants.{MAX_ROOM};

/// Which number each limit is.
pub fn limits_are_told()
    ensures identities { MAX_IDENTITIES ≡ 64 }
    ensures extensions { MAX_EXTENSIONS ≡ 32 }
    ensures prefix { MAX_PREFIX ≡ 1024 }
    ensures room { MAX_ROOM ≡ 65536 }
{}

/// What `read_conf` refuses, but for want of memory, is no configuration, so it accepts each.
#[tactic(auto, using(crate::proofs::Refused::refused))]
pub fn refused_are_no_configurations()
    ensures { (found : ConfFault) (text : List ℕ) (value : ConfValue)
        → RefusesConf found text → found ≢ NoMemory → Configures text value → ⊥ }
{}

/// A text is at most one configuration.
#[tactic(auto, using(crate::proofs::Refused::only))]
pub fn configures_once()
    ensures { (text : List ℕ) (one other : ConfValue)
        → Configures text one → Configures text other → one ≡ other }
{}

/// What signing needs of a configuration: its attribute can name a package, no two of its keys have one name, and
/// each key has a name that a header can carry.
pub fn configures_what_signing_needs()
    ensures attribute { (text : List ℕ) (value : ConfValue) → Configures text value
        → is_attr_name value.site.profile.attribute ≡ true }
    ensures apart { (text : List ℕ) (value : ConfValue) → Configures text value
        → first_repeat value.site.profile.ring ≡ None }
    ensures named { (text : List ℕ) (value : ConfValue) → Configures text value
        → All (λ key. is_kid key.kid ≡ true) value.site.profile.ring }
    ensures found { (text kid : List ℕ) (value : ConfValue) (key : KeyValue) → Configures text value
        → key_named value.site.profile.ring kid ≡ Some key → is_kid key.kid ≡ true }
{}
