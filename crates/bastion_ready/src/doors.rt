//! The doors of a server, and its services.
ghost use Rattle.std.specs.Prelude.{◌≡◌, ◌++◌, replicate, true, All, IfOk, OnOk};
ghost use Rattle.bastion_ready.specs.Words.{doors_of, has_service, is_for_server, services_of};

use crate::{Door, Plan};
use fw_types::NoMemory;
use fwtk_serve::is_same_service;
use gate_rules::Service;
use std::alloc::Global;

// Adds a door of this service at this port for each of so many workers.
fn push_doors(doors: &mut Vec<Door>, workers: u32, post: &Door) -> Result<(), NoMemory>
    ensures { OnOk result (doors.new.items ≡ doors.old.items ++ replicate workers post.now) }
{
    for _made in 0..workers {
        doors.push((post.0.twin(), post.1))?;
    }
    Ok(())
}

/// One door for each worker, in the order of the words.
pub(crate) fn doors_of(alloc: Global, plan: &Plan) -> Result<Vec<Door>, NoMemory>
    ensures { IfOk result (λ doors. doors.items ≡ doors_of plan.now) }
{
    let mut doors = Vec::new(alloc);
    for post in plan.posts.as_slice() {
        push_doors(&mut doors, plan.workers, post)?;
    }
    Ok(doors)
}

fn has_service(service: &Service, services: &[Service]) -> bool
    ensures { result ≡ has_service service.now services.now }
{
    services.iter().any(|one| is_same_service(one, service))
}

fn services_of(alloc: Global, posts: &[Door]) -> Result<Vec<Service>, NoMemory>
    ensures { IfOk result (λ services. services.items ≡ services_of posts.now) }
{
    let mut services = Vec::new(alloc);
    for (service, _) in posts {
        if !has_service(service, services.as_slice()) {
            services.push(service.twin())?;
        }
    }
    Ok(services)
}

/// Each service once, in the order of the words.
pub(crate) fn services_for(alloc: Global, posts: &[Door]) -> Result<Vec<Service>, NoMemory>
    requires { All (λ post. is_for_server post.0 ≡ true) posts.now }
    ensures are { IfOk result (λ services. services.items ≡ services_of posts.now) }
    ensures served { IfOk result (λ services. All (λ s. is_for_server s ≡ true) services.items) }
{
    services_of(alloc, posts)
}
