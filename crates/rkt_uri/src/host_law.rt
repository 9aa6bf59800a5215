ghost use Rattle.rkt_uri.specs.Host.{SpellsOneHost};

/// A law of hosts: a text spells one at most.
pub fn spells_one_host()
    ensures { SpellsOneHost }
{}
