// What a reader of the taken list, and a host, may rely on: six promises, defined in specs/ and proved in proofs/ from demand 3. No code but a function with
// nothing to run, whose contract is the promises.
#![tactic(auto)]

ghost use Rattle.calendar.specs.rules.Linearizability.{Always};
ghost use Rattle.calendar.specs.rules.HostHistory.{HostAlways};
ghost use Rattle.taken_list.specs.Promises.{OneAtATime, NothingPassedOver, EmptyMeansEmpty, TwoTakes, Swapped, OnceEach, Drains, HostDrains};

// The promises are kept, of every history and of every list of a host's requests.
pub fn promises_kept()
    ensures one_at_a_time { Always OneAtATime }
    ensures nothing_passed_over { Always NothingPassedOver }
    ensures empty_means_empty { Always EmptyMeansEmpty }
    ensures two_takes { Always TwoTakes }
    ensures swapped { Always Swapped }
    ensures once_each { Always OnceEach }
    ensures drains { Drains }
    ensures host_one_at_a_time { HostAlways OneAtATime }
    ensures host_nothing_passed_over { HostAlways NothingPassedOver }
    ensures host_empty_means_empty { HostAlways EmptyMeansEmpty }
    ensures host_two_takes { HostAlways TwoTakes }
    ensures host_swapped { HostAlways Swapped }
    ensures host_once_each { HostAlways OnceEach }
    ensures host_drains { HostDrains }
{}
