//! The two edges of a generated script.
ghost use Rattle.std.specs.Prelude.{◌≡◌, [], ◌∷◌, All, IfOk};
ghost use Rattle.usp_conf.specs.Readings.{Configures};
ghost use Rattle.usp_conf.specs.Values.{ConfValue, IsConf};
ghost use Rattle.usp_script.specs.Generator.{a_text, b_text};

use crate::NoMemory;
use crate::known::know_conf;
use std::alloc::Global;
use usp_conf::{Conf, ConfFault, read_conf};

// The configuration of the edge that the provider's viewers come to, and that of the edge to which it sends them on.
const A: &[u8] = b"{\"edge\":\"a\",\"scheme\":\"https\",\"keys\":[{\"kid\":\"kp\",\
    \"issuer\":\"cp\",\"secret\":\"AQEBAQEBAQEBAQEBAQEBAQEBAQEBAQEBAQEBAQEBAQE\"},\
    {\"kid\":\"ka\",\"issuer\":\"cdn-a\",\
    \"secret\":\"AgICAgICAgICAgICAgICAgICAgICAgICAgICAgICAgI\"}],\
    \"issuers\":[\"cp\",\"cdn-a\"],\"audience\":[\"cdn-a\"],\"sign_kid\":\"ka\",\
    \"routes\":[{\"prefix\":\"/b/\",\"scheme\":\"https\",\"authority\":\"b.example\",\
    \"kid\":\"kab\",\"issuer\":\"cdn-a\",\
    \"secret\":\"AwMDAwMDAwMDAwMDAwMDAwMDAwMDAwMDAwMDAwMDAwM\",\"audience\":\"cdn-b\"}]}";

const B: &[u8] = b"{\"edge\":\"b\",\"scheme\":\"https\",\"keys\":[{\"kid\":\"kab\",\
    \"issuer\":\"cdn-a\",\"secret\":\"AwMDAwMDAwMDAwMDAwMDAwMDAwMDAwMDAwMDAwMDAwM\"},\
    {\"kid\":\"kb\",\"issuer\":\"cdn-b\",\
    \"secret\":\"BAQEBAQEBAQEBAQEBAQEBAQEBAQEBAQEBAQEBAQEBAQ\"}],\
    \"issuers\":[\"cdn-a\",\"cdn-b\"],\"audience\":[\"cdn-b\"],\"sign_kid\":\"kb\"}";

// What a text configures that is known to be a configuration.
#[tactic(auto, using(usp_conf::proofs::Refused::refused))]
fn configured(alloc: Global, text: &[u8]) -> Result<Conf, NoMemory>
    requires { (value : ConfValue) × Configures text.now value }
    ensures { IfOk result (λ conf. Configures text.now conf) }
{
    match read_conf(alloc, text) {
        Ok(conf) => Ok(conf),
        Err(ConfFault::NoMemory) => Err(NoMemory),
        Err(_) => unreachable!(),
    }
}

#[tactic(auto, unfolding(crate::specs::Generator::a_text))]
fn a_text() -> &'static [u8]
    ensures { result.now ≡ a_text }
{
    A
}

#[tactic(auto, unfolding(crate::specs::Generator::b_text))]
fn b_text() -> &'static [u8]
    ensures { result.now ≡ b_text }
{
    B
}

/// The two, in their order.
#[tactic(auto, using(crate::proofs::Configurations::a_configures, crate::proofs::Configurations::b_configures, crate::proofs::Kept::two_confs))]
pub fn edges(alloc: Global) -> Result<Vec<Conf>, NoMemory>
    ensures two { IfOk result (λ edges. (a b : ConfValue)
        × Configures a_text a × Configures b_text b × (edges.items ≡ a ∷ b ∷ [])) }
    ensures confs { IfOk result (λ edges. All IsConf edges.items) }
{
    let a = configured(alloc, a_text())?;
    let b = configured(alloc, b_text())?;
    know_conf(&a);
    know_conf(&b);
    let mut edges = Vec::new(alloc);
    edges.push(a)?;
    edges.push(b)?;
    Ok(edges)
}
