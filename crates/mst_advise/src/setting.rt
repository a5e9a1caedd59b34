ghost use Rattle.std.specs.Prelude.{◌≡◌, IfOk, OnOk};
ghost use Rattle.std.specs.List.{list_any};
ghost use Rattle.mst_graph.specs.Lists.{each_once, with_new};
ghost use Rattle.mst_advise.specs.Settings.{edit_of as its_edit, same_setting};

use mst_ids::{Cost, Name, PortName, Priority, Tree};
use mst_lang::{Edit, PortChange, TreeChange};
use std::alloc::{AllocError, Global};

/// A setting that may bring about what is wanted.
#[derive(Clone, Copy)]
pub enum Setting {
    /// The priority of a bridge in a tree.
    Priority {
        bridge: Name,
        tree: Tree,
        priority: Priority,
    },
    /// The priority of a port in a tree.
    PortPriority {
        port: PortName,
        tree: Tree,
        priority: Priority,
    },
    /// The external path cost of a port.
    ExternalCost {
        port: PortName,
        cost: Cost,
    },
    /// The internal path cost of a port in a tree.
    InternalCost {
        port: PortName,
        tree: Tree,
        cost: Cost,
    },
}

/// The edit that makes a setting.
pub fn edit_of(setting: Setting) -> Edit
    ensures { result ≡ its_edit setting }
{
    match setting {
        Setting::Priority {
            bridge,
            tree,
            priority,
        } => Edit::SetByTree(TreeChange::Priority {
            bridge,
            tree,
            priority,
        }),
        Setting::PortPriority {
            port,
            tree,
            priority,
        } => Edit::SetByTree(TreeChange::PortPriority {
            port,
            tree,
            priority,
        }),
        Setting::ExternalCost { port, cost } => Edit::SetPort {
            port,
            change: PortChange::PathCost(Some(cost)),
        },
        Setting::InternalCost { port, tree, cost } => Edit::SetByTree(TreeChange::PortCost {
            port,
            tree,
            cost: Some(cost),
        }),
    }
}

/// Whether two settings set the same thing to the same number.
fn is_same(a: &Setting, b: &Setting) -> bool
    ensures { result ≡ same_setting a.now b.now }
{
    match (a, b) {
        (
            Setting::Priority {
                bridge,
                tree,
                priority,
            },
            Setting::Priority {
                bridge: other,
                tree: in_tree,
                priority: number,
            },
        ) => bridge == other && (tree == in_tree && priority == number),
        (
            Setting::PortPriority {
                port,
                tree,
                priority,
            },
            Setting::PortPriority {
                port: other,
                tree: in_tree,
                priority: number,
            },
        ) => port == other && (tree == in_tree && priority == number),
        (
            Setting::ExternalCost { port, cost },
            Setting::ExternalCost {
                port: other,
                cost: number,
            },
        ) => port == other && cost == number,
        (
            Setting::InternalCost { port, tree, cost },
            Setting::InternalCost {
                port: other,
                tree: in_tree,
                cost: number,
            },
        ) => port == other && (tree == in_tree && cost == number),
        _ => false,
    }
}

/// Whether a setting is among these.
fn is_among(settings: &[Setting], setting: &Setting) -> bool
    ensures { result ≡ list_any (λ other. same_setting other setting.now) settings.now }
{
    settings.iter().any(|other| is_same(other, setting))
}

/// Puts a setting behind these, unless it is among them.
fn add_new(setting: &Setting, kept: &mut Vec<Setting>) -> Result<(), AllocError>
    ensures { OnOk result (kept.new.items ≡ with_new same_setting kept.old.items setting.now) }
{
    if is_among(kept.as_slice(), setting) {
        return Ok(());
    }
    kept.push(*setting)?;
    Ok(())
}

/// Each of these settings once, in the order in which they come first. `AllocError`: memory was wanted and refused.
pub(crate) fn once(alloc: Global, settings: &[Setting]) -> Result<Vec<Setting>, AllocError>
    ensures { IfOk result (λ kept. kept.items ≡ each_once same_setting settings.now) }
{
    let mut kept = Vec::new(alloc);
    for setting in settings {
        add_new(setting, &mut kept)?;
    }
    Ok(kept)
}
