ghost use Rattle.std.specs.Prelude.{◌≡◌, ◌∷◌, [], IfOk, All, Some, None};
ghost use Rattle.std.specs.Option.{option_copied};
ghost use Rattle.indexmap.specs.IndexMap.{insert_entry};
ghost use Rattle.rkt_base.specs.Want.{IfRefused};
ghost use Rattle.rkt_shield.specs.Allow.{kept, NamesHost};
ghost use Rattle.rkt_shield.specs.Permission.{allowed_by};
ghost use Rattle.rkt_shield.specs.SameRules.{says, says_all};
ghost use Rattle.rkt_shield.specs.declared.feature.Feature.TheVariants.{InterestCohort};

use crate::allow::{Allow, OriginWithoutHost};
use crate::allow_list::{AllowList, kept_list};
use crate::feature::Feature;
use indexmap::IndexMap;
use indexmap::map::Iter;
use rkt_base::{NoMemory, Want};
use std::alloc::Global;
use std::marker::Model;

/// Which features a site permits, and to whom. Features stand in the order in which they were first named.
#[derive(Debug, Drop)]
pub struct Permission {
    alloc: Global,
    rules: IndexMap<Feature, Option<AllowList>>,
}

impl Model for Permission {
    ghost use Rattle.std.specs.Prelude.{List};
    ghost use Rattle.rkt_shield.specs.Permission.{Rule};

    ghost Value = { List Rule };

    ghost view = { λ p. p.rules.entries };
}

fn shown(list: &Option<AllowList>) -> Option<&[Allow]>
    ensures { option_copied result ≡ list.now }
{
    match list {
        Some(list) => Some(list.as_slice()),
        None => None,
    }
}

impl Permission {
    fn new(alloc: Global) -> Permission
        ensures { result ≡ [] }
    {
        Permission {
            alloc,
            rules: IndexMap::new(alloc),
        }
    }

    /// Says who may use the feature, in place of what was said.
    fn with_rule(
        mut self,
        feature: Feature,
        list: Option<AllowList>,
    ) -> Result<Permission, NoMemory>
        ensures { IfOk result (λ p. p ≡ insert_entry ⟦<Feature as PartialEq>⟧.eq self feature list) }
    {
        self.rules.insert(feature, list)?;
        Ok(self)
    }

    /// Whether this is said of the feature.
    fn says(&self, feature: Feature, list: &Option<AllowList>) -> bool
        ensures { result ≡ says ⟦<Feature as PartialEq>⟧.eq self.now (feature, list.now) }
    {
        match self.rules.get(&feature) {
            Some(said) => said == list,
            None => false,
        }
    }

    /// Whether all is said that the other says.
    fn says_all(&self, other: &Permission) -> bool
        ensures { result ≡ says_all ⟦<Feature as PartialEq>⟧.eq self.now other.now }
    {
        other
            .rules
            .iter()
            .all(|(feature, list)| self.says(*feature, list))
    }

    /// Nobody may use cohorts of interests.
    pub fn default(alloc: Global) -> Result<Permission, NoMemory>
        ensures { IfOk result (λ p. p ≡ (InterestCohort, None) ∷ []) }
    {
        Permission::blocked(alloc, Feature::InterestCohort)
    }

    /// These may use the feature, and nothing is said of others.
    pub fn allowed(
        alloc: Global,
        feature: Feature,
        allow: &[Allow],
    ) -> Result<Permission, Want<OriginWithoutHost>>
        ensures rules { IfOk result (λ p. p ≡ (feature, Some (kept allow.now)) ∷ []) }
        // It is refused exactly where an origin has no host.
        ensures hosts { IfOk result (λ p. All NamesHost (kept allow.now)) }
        ensures refused { IfRefused result (λ e. ¬ All NamesHost (kept allow.now)) }
    {
        Permission::new(alloc).allow(feature, allow)
    }

    /// Nobody may use the feature, and nothing is said of others.
    pub fn blocked(alloc: Global, feature: Feature) -> Result<Permission, NoMemory>
        ensures { IfOk result (λ p. p ≡ (feature, None) ∷ []) }
    {
        Permission::new(alloc).block(feature)
    }

    /// These may use the feature, in place of those who might before. Any among them is all of them.
    pub fn allow(
        self,
        feature: Feature,
        allow: &[Allow],
    ) -> Result<Permission, Want<OriginWithoutHost>>
        ensures rules { IfOk result (λ p. p ≡ insert_entry ⟦<Feature as PartialEq>⟧.eq self feature (Some (kept allow.now))) }
        // It is refused exactly where an origin has no host.
        ensures hosts { IfOk result (λ p. All NamesHost (kept allow.now)) }
        ensures refused { IfRefused result (λ e. ¬ All NamesHost (kept allow.now)) }
    {
        let list = kept_list(self.alloc, allow)?;
        Ok(self.with_rule(feature, Some(list))?)
    }

    /// Nobody may use the feature, whoever might before.
    pub fn block(self, feature: Feature) -> Result<Permission, NoMemory>
        ensures { IfOk result (λ p. p ≡ insert_entry ⟦<Feature as PartialEq>⟧.eq self feature None) }
    {
        self.with_rule(feature, None)
    }

    /// Those who may use the feature. None where nobody may, and where nothing is said of it.
    pub fn get(&self, feature: Feature) -> Option<&[Allow]>
        ensures { option_copied result ≡ allowed_by (⟦<Feature as PartialEq>⟧.eq feature) self.now }
    {
        shown(self.rules.get(&feature)?)
    }

    /// Each feature that is named, with those who may use it.
    pub fn iter(&self) -> PermissionIter<'_>
        ensures { result ≡ self.now }
    {
        PermissionIter {
            rules: self.rules.iter(),
        }
    }
}

/// In any order of the features. The lists have their order.
impl PartialEq for Permission {
    ghost use Rattle.std.specs.Cmp.Derive.{bare_equiv};
    ghost use Rattle.rkt_shield.specs.contracts.feature.Feature.{enum};
    ghost use Rattle.rkt_shield.specs.SameRules.{same_rules};
    ghost use Rattle.rkt_shield.specs.SameRulesLaws.{same_rules_laws};

    ghost eq = { same_rules ⟦<Feature as PartialEq>⟧.eq };

    ghost laws = { same_rules_laws ⟦<Feature as PartialEq>⟧.eq (bare_equiv enum) };

    fn eq(&self, other: &Permission) -> bool {
        self.says_all(other) && other.says_all(self)
    }
}

/// Features with those who may use them, or none where nobody may, in the order in which they were first named.
#[derive(Drop)]
pub struct PermissionIter<'a> {
    rules: Iter<'a, Feature, Option<AllowList>>,
}

impl<'a> Model for PermissionIter<'a> {
    ghost use Rattle.std.specs.Prelude.{List};
    ghost use Rattle.rkt_shield.specs.Permission.{Rule};

    ghost Value = { List Rule };

    ghost view = { λ s. s.rules };
}

impl<'a> Iterator for PermissionIter<'a> {
    ghost use Rattle.std.specs.Iterator.{YieldsFirstBy, item_count};
    ghost use Rattle.std.specs.Option.{option_copied};

    type Item = (Feature, Option<&'a [Allow]>);

    ghost next_gives = { YieldsFirstBy (λ x. (x.0, option_copied x.1)) (λ s. s) };

    ghost remaining = { item_count (λ s. s) };

    fn next(&mut self) -> Option<(Feature, Option<&'a [Allow]>)> {
        let (feature, list) = self.rules.next()?;
        Some((*feature, shown(list)))
    }
}
