//! What is known of each configuration.
ghost use Rattle.usp_conf.specs.Values.{IsConf};

use usp_conf::Conf;

/// A configuration keeps what each one keeps.
pub fn know_conf(conf: &Conf)
    ensures { IsConf conf.now }
{
    // Each of these calls says a part of it.
    let _edge = conf.edge();
    let _scheme = conf.scheme();
    let _room = conf.room();
}
