// The targets of a document, which get numbers where they are new.

ghost use Rattle.std.specs.Prelude.{◌≡◌, ◌≢◌, ◌≤◌, length, map, IfOk, IfErr, OnOk, OnErr};
ghost use Rattle.site_model.specs.declared.fault.SiteFault.TheVariants.{NoMemory};
ghost use Rattle.site_model.specs.Limits.{most_targets};
ghost use Rattle.desk_core.specs.Targets.{names_of, target_names, all_numbered, with_targets, AreTooMany, Numbers, numbers_of, targets_of};

use plan_base::{ListOf, TargetNo};
use request_model::{ConfigDoc, RequestDoc};
use site_model::{Network, SiteFault};
use std::alloc::{AllocError, Global};
use std::collections::BTreeSet;

/// Numbers the targets of configurations. An error leaves those numbered that came before.
fn number_each(network: &mut Network, configurations: &[ConfigDoc]) -> Result<(), SiteFault>
    ensures { Numbers (names_of configurations.now) network.old network.new result }
{
    for configuration in configurations {
        network.target(&configuration.target)?;
    }
    Ok(())
}

/// Numbers the targets of requests. An error leaves those numbered that came before.
fn number_requests(network: &mut Network, requests: &[RequestDoc]) -> Result<(), SiteFault>
    ensures { Numbers (target_names requests.now) network.old network.new result }
{
    for request in requests {
        number_each(network, request.configurations.as_slice())?;
    }
    Ok(())
}

/// Numbers the targets of requests, in their order. `Full` comes where there would be more than 2,048. An error changes
/// nothing.
pub(crate) fn number_targets(
    network: &mut Network,
    requests: &[RequestDoc],
) -> Result<(), SiteFault>
    ensures numbered { OnOk result (network.new ≡ with_targets (all_numbered network.old.registry.targets (target_names requests.now)) network.old) }
    ensures few { OnOk result (length (all_numbered network.old.registry.targets (target_names requests.now)) ≤ most_targets) }
    ensures refused { IfErr result (λ fault. fault ≢ NoMemory → AreTooMany network.old.registry.targets (target_names requests.now) fault) }
    ensures unchanged { OnErr result (network.new ≡ network.old) }
{
    let known = network.targets();
    let numbered = number_requests(network, requests);
    if let Err(fault) = numbered {
        network.forget_targets(known);
        return Err(fault);
    }
    // Recalls that there are at most 2,048 targets.
    let _ = network.targets();
    Ok(())
}

/// The numbers of the targets of configurations.
fn numbers_of(
    alloc: Global,
    network: &Network,
    configurations: &[ConfigDoc],
) -> Result<BTreeSet<u16>, AllocError>
    ensures { IfOk result (λ numbers. numbers.keys ≡ numbers_of network.now.registry.targets configurations.now) }
{
    let mut numbers = BTreeSet::new(alloc);
    for configuration in configurations {
        if let Some(target) = network.find_target(&configuration.target) {
            numbers.insert(target.0)?;
        }
    }
    Ok(numbers)
}

/// The targets with these numbers, in rising order. Fails only for want of memory.
pub(crate) fn as_targets(
    alloc: Global,
    numbers: &BTreeSet<u16>,
) -> Result<Vec<TargetNo>, AllocError>
    ensures { IfOk result (λ v. v.items ≡ map (λ n. record { 0 = n }) numbers.now.keys) }
{
    numbers.iter().map(|n| TargetNo(*n)).collect(alloc)
}

/// The numbers of the targets of configurations, each once, rising.
pub(crate) fn targets_of(
    alloc: Global,
    network: &Network,
    configurations: &[ConfigDoc],
) -> Result<ListOf<TargetNo>, AllocError>
    ensures { IfOk result (λ targets. targets ≡ targets_of network.now.registry.targets configurations.now) }
{
    let numbers = numbers_of(alloc, network, configurations)?;
    let targets = as_targets(alloc, &numbers)?;
    Ok(ListOf::from_vec(targets))
}
