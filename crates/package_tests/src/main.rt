//! Tests that no transcript can express: of devices, of sources that fail, of string pools and property sets of no
//! package, of transforms to the byte, of packages in files, and of lists of calls; and the examples of the crate
//! `examples`, which print lines. A test that fails is named on standard error, and then the exit status is 1.
#![tactic(auto)]

mod device_calls;
mod devices;
mod files;
mod looking;
mod made_transforms;
mod outcome;
mod property_set;
mod replays;
mod string_pool;

use examples::printing::Failure;
use outcome::passes;
use std::process::ExitCode;

fn run(rt: &HostRuntime) -> bool {
    let alloc = rt.alloc();
    let mut pass = run_devices(rt);
    pass &= passes(rt, &"the examples", run_examples(rt));
    pass &= passes(
        rt,
        &"a pool",
        string_pool::a_pool_is_written_and_read_back(alloc),
    );
    pass &= passes(
        rt,
        &"a property set",
        property_set::a_set_is_written_and_read_back(alloc),
    );
    pass &= passes(
        rt,
        &"made transforms",
        made_transforms::transforms_are_made_as_they_were(alloc),
    );
    pass &= passes(
        rt,
        &"failing sources",
        looking::failing_sources_are_asked_again(alloc),
    );
    pass &= passes(
        rt,
        &"short reads",
        looking::short_reads_show_the_same(alloc),
    );
    pass &= passes(
        rt,
        &"cut packages",
        looking::cut_packages_are_refused_alike(alloc),
    );
    pass &= passes(rt, &"files", files::opening_leaves_the_file_as_it_was(rt));
    pass & replays::a_list_of_calls_is_answered(rt)
}

fn run_devices(rt: &HostRuntime) -> bool {
    let mut pass = devices::memory_is_read_to_its_end_and_written_past_it(rt);
    pass &= devices::files_are_written_and_read_and_faults_raise_the_flag(rt);
    pass & devices::pieces_are_collected_and_read_back(rt)
}

fn run_examples(rt: &HostRuntime) -> Result<bool, Failure> {
    let path = files::path(rt, "examples")?;
    examples::run(rt, path.as_str())
}

fn main(rt: HostRuntime) -> ExitCode {
    if run(&rt) {
        ExitCode::SUCCESS
    } else {
        ExitCode::FAILURE
    }
}
