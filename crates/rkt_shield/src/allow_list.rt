ghost use Rattle.std.specs.Prelude.{◌≡◌, ◌∷◌, ◌↔◌, [], IfOk, IsTrue, All};
ghost use Rattle.std.specs.List.{list_any};
ghost use Rattle.rkt_base.specs.Want.{IfRefused};
ghost use Rattle.rkt_shield.specs.Allow.{is_any, kept, NamesHost};
ghost use Rattle.rkt_shield.specs.declared.allow.Allow.TheVariants.{Any};

use crate::allow::{Allow, OriginWithoutHost};
use rkt_base::{NoMemory, Want, copy_all};
use std::alloc::Global;
use std::marker::Model;

/// Those who may use a feature, in order.
#[derive(Debug, Drop)]
pub(crate) struct AllowList {
    items: Vec<Allow>,
}

impl Model for AllowList {
    ghost use Rattle.std.specs.Prelude.{List};
    ghost use Rattle.rkt_shield.specs.declared.allow.Allow.{Allow};

    ghost Value = { List Allow };

    ghost view = { λ l. l.items.items };
}

fn any_alone(alloc: Global) -> Result<Vec<Allow>, NoMemory>
    ensures { IfOk result (λ items. items.items ≡ Any ∷ []) }
{
    let mut items = Vec::new(alloc);
    items.push(Allow::Any)?;
    Ok(items)
}

fn has_any(allow: &[Allow]) -> bool
    ensures { result ≡ list_any is_any allow.now }
{
    allow.iter().any(|one| one.is_any())
}

fn name_hosts(allow: &[Allow]) -> bool
    ensures { IsTrue result ↔ All NamesHost allow.now }
{
    allow.iter().all(|one| one.names_host())
}

impl AllowList {
    pub(crate) fn as_slice(&self) -> &[Allow]
        ensures { result.now ≡ self.now }
    {
        self.items.as_slice()
    }
}

impl PartialEq for AllowList {
    ghost use Rattle.std.specs.Cmp.{partial_equiv_from_equiv};
    ghost use Rattle.std.specs.Cmp.Lexicographic.{pointwise, lists_equiv};
    ghost use Rattle.rkt_shield.specs.SameRules.{same_allow};
    ghost use Rattle.rkt_shield.specs.SameRulesLaws.{same_allow_equiv};

    ghost eq = { pointwise same_allow };

    ghost laws = { partial_equiv_from_equiv (lists_equiv same_allow_equiv) };

    fn eq(&self, other: &AllowList) -> bool {
        self.items.as_slice() == other.items.as_slice()
    }
}

/// What is kept of a list: Any alone, where it is there. An origin without a host is refused before memory is asked for.
pub(crate) fn kept_list(
    alloc: Global,
    allow: &[Allow],
) -> Result<AllowList, Want<OriginWithoutHost>>
    ensures list { IfOk result (λ list. list ≡ kept allow.now) }
    ensures hosts { IfOk result (λ list. All NamesHost (kept allow.now)) }
    ensures refused { IfRefused result (λ e. ¬ All NamesHost (kept allow.now)) }
{
    if has_any(allow) {
        let items = any_alone(alloc)?;
        return Ok(AllowList { items });
    }
    if !name_hosts(allow) {
        return Err(Want::Refused(OriginWithoutHost));
    }
    let items = copy_all(alloc, allow)?;
    Ok(AllowList { items })
}
