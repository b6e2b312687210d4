// The services that a run calls.

use pli_environment::environment::Environment;
use raw_storage::storage::Storage;
use rv_image::image::Image;
use rv_machine::machine::Machine;
use rv_machine::services::{Served, Services};
use std::io;

/// One more than the greatest number of a service.
const NUMBERS: usize = 42;

/// Services that hand each call on, and keep its number.
#[derive(Drop)]
struct Watched {
    environment: Environment,
    called: [bool; NUMBERS],
}

impl Services for Watched {
    ghost serves = { λ s x m answer t y n. Unit {0} };

    fn call(&mut self, registers: &mut [u32; 32], storage: &mut Storage) -> Served {
        let number = registers[17] as usize;
        if number < NUMBERS {
            self.called[number] = true;
        }
        self.environment.call(registers, storage)
    }
}

/// Tells the numbers of the services that are called, in order, where an image runs for at most `bound` instructions.
pub fn show_services(rt: &HostRuntime, image: &Image, input: &[u8], bound: u64) -> io::Result<()> {
    let code_bytes = 4 * image.code().len() as u32;
    let mut watched = Watched {
        environment: Environment::new(rt.alloc(), code_bytes, image.table(), input)?,
        called: [false; NUMBERS],
    };
    let Ok(mut machine) = Machine::new(rt.alloc(), image, crate::BASE) else {
        return Err(io::Error::from(io::ErrorKind::OutOfMemory));
    };
    let _ = machine.run_for(&mut watched, bound);
    print!(rt; "services")?;
    for (number, called) in watched.called.iter().enumerate() {
        if *called {
            print!(rt; " {number}")?;
        }
    }
    println!(rt)
}
