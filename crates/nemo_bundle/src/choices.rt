ghost use Rattle.std.specs.Prelude.{◌≡◌, ◌≤◌, ◌+◌, IfOk, option_map};
ghost use Rattle.serde_json.specs.View.{view};
ghost use Rattle.nemo_read.specs.Answers.{Reads};
ghost use Rattle.nemo_bundle.specs.Answers.{Walks};
ghost use Rattle.nemo_bundle.specs.Choices as spec;

use crate::end::{WalkEnd, placed};
use nemo_base::limits::{self, Range};
use nemo_base::{Policy, Settings};
use nemo_read::{PartEnd, read_member, read_ranged};
use serde_json::Value;
use std::alloc::Global;

/// The slots of a run: those from 0 are reserved, the following ones transient.
#[derive(Clone, Copy)]
pub(crate) struct Cluster {
    pub(crate) reserved: u32,
    pub(crate) transient: u32,
}

impl Cluster {
    /// Of settings.
    pub fn of(settings: Settings) -> Cluster
        ensures { result ≡ spec.cluster_of settings }
    {
        Cluster {
            reserved: settings.reserved,
            transient: settings.transient,
        }
    }
}

/// What a bundle says of its run.
#[derive(Clone, Copy)]
pub(crate) struct Choices {
    pub(crate) parallelism: u32,
    pub(crate) policy: Policy,
    pub(crate) settings: Settings,
}

/// What the members of a bundle say of its run, or the place of the first that has not its form: 0 the cluster, 1 the
/// parallelism, 2 the policy, 3 to 6 the settings.
pub(crate) fn read_choices(alloc: Global, value: &Value) -> Result<Choices, WalkEnd>
    ensures choices { Walks (λ c. c) result (spec.choices_of (view value.now)) }
    ensures range { IfOk result (λ c. (1 ≤ c.parallelism) × (c.parallelism ≤ 64)) }
{
    let cluster = placed(0, read_cluster(alloc, value.get("cluster")))?;
    let parallelism = placed(
        1,
        read_number(alloc, value.get("parallelism"), limits::PARALLELISM),
    )?;
    let policy = placed(2, read_policy(value.get("policy")))?;
    let settings = read_settings(alloc, cluster, value.get("settings"))?;
    Ok(Choices {
        parallelism,
        policy,
        settings,
    })
}

/// The cluster of a member, or the default one where it is absent.
fn read_cluster(alloc: Global, member: Option<&Value>) -> Result<Cluster, PartEnd>
    ensures cluster { Reads result (spec.cluster_in (option_map (λ v. view v.now) member.entry)) }
    ensures range { IfOk result (λ c. (1 ≤ c.reserved) × (c.reserved + c.transient ≤ 64)) }
{
    let Some(value) = member else {
        return Ok(Cluster {
            reserved: limits::DEFAULT_RESERVED,
            transient: limits::DEFAULT_TRANSIENT,
        });
    };
    let reserved: u32 = read_member(alloc, value, "reserved")?;
    let transient: u32 = read_member(alloc, value, "transient")?;
    if 1 <= reserved && u64::from(reserved) + u64::from(transient) <= u64::from(limits::MAX_SLOTS) {
        Ok(Cluster {
            reserved,
            transient,
        })
    } else {
        Err(PartEnd::Malformed)
    }
}

/// The number of a member that may be absent.
fn read_number(alloc: Global, member: Option<&Value>, range: Range) -> Result<u32, PartEnd>
    requires usual { (range.least ≤ range.usual) × (range.usual ≤ range.most) }
    ensures number { Reads result (spec.number_in range.least range.most range.usual (option_map (λ v. view v.now) member.entry)) }
    ensures range { IfOk result (λ n. (range.least ≤ n) × (n ≤ range.most)) }
{
    match member {
        Some(value) => read_ranged(alloc, value, range.least, range.most),
        None => Ok(range.usual),
    }
}

/// The policy of a member, or the plain one where it is absent.
fn read_policy(member: Option<&Value>) -> Result<Policy, PartEnd>
    ensures { Reads result (spec.policy_in (option_map (λ v. view v.now) member.entry)) }
{
    match member {
        Some(value) => value
            .as_str()
            .and_then(Policy::from_word)
            .ok_or(PartEnd::Malformed),
        None => Ok(Policy::Plain),
    }
}

/// The settings of a member that may be absent, with the slots of a cluster.
fn read_settings(
    alloc: Global,
    cluster: Cluster,
    member: Option<&Value>,
) -> Result<Settings, WalkEnd>
    requires reserved { 1 ≤ cluster.reserved }
    requires slots { cluster.reserved + cluster.transient ≤ 64 }
    ensures settings { Walks (λ s. s) result (spec.settings_of cluster (option_map (λ v. view v.now) member.entry)) }
{
    let loss_bound = placed(3, read_loss_bound(alloc, member))?;
    let piece = placed(4, read_setting(alloc, member, "piece", limits::PIECE))?;
    let sample = placed(5, read_setting(alloc, member, "sample", limits::SAMPLE))?;
    let decoded = placed(6, read_setting(alloc, member, "decoded", limits::DECODED))?;
    Ok(Settings {
        reserved: cluster.reserved,
        transient: cluster.transient,
        loss_bound,
        piece,
        sample,
        decoded: u64::from(decoded),
    })
}

/// The first of the settings, which is refused too where they are no object.
fn read_loss_bound(alloc: Global, settings: Option<&Value>) -> Result<u32, PartEnd>
    ensures number { Reads result (spec.loss_bound_in (option_map (λ v. view v.now) settings.entry)) }
    ensures range { IfOk result (λ n. (1 ≤ n) × (n ≤ 1000)) }
{
    if is_record(settings) {
        read_setting(alloc, settings, "loss_bound", limits::LOSS_BOUND)
    } else {
        Err(PartEnd::Malformed)
    }
}

fn is_record(member: Option<&Value>) -> bool
    ensures { result ≡ spec.is_record (option_map (λ v. view v.now) member.entry) }
{
    match member {
        Some(value) => value.as_object().is_some(),
        None => true,
    }
}

fn read_setting(
    alloc: Global,
    settings: Option<&Value>,
    name: &str,
    range: Range,
) -> Result<u32, PartEnd>
    requires usual { (range.least ≤ range.usual) × (range.usual ≤ range.most) }
    ensures number { Reads result (spec.number_in range.least range.most range.usual (spec.setting name.now (option_map (λ v. view v.now) settings.entry))) }
    ensures range { IfOk result (λ n. (range.least ≤ n) × (n ≤ range.most)) }
{
    match settings {
        Some(value) => read_number(alloc, value.get(name), range),
        None => Ok(range.usual),
    }
}
