// A host's request: the worker that it is for.
ghost use Rattle.std.specs.Prelude.{◌≡◌};
ghost use Rattle.arrival.specs.Requests.{actor, action_of};

use arrival::Request;

// As an index.
pub fn index_of(request: Request) -> usize
    ensures { result ≡ actor (action_of request) }
{
    request.action().worker() as usize
}
