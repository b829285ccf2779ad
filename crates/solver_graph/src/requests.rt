//! Converts replies and requests between numbers, which a search uses, and goals and responses, which frames use.

ghost use Rattle.std.specs.Prelude.{◌≡◌, Err, IfOk, IfErr};
ghost use Rattle.type_terms.specs.declared.Fault.TheVariants.{Memory};
ghost use Rattle.search_graph.specs.Meaning as Search;
ghost use Rattle.goal_frames.specs.Frames.{RequestHeld};
ghost use Rattle.goal_frames.specs.Frames as Frames;
ghost use Rattle.solver_graph.specs.Answers.{reply_read, request_read};
ghost use Rattle.solver_graph.specs.Contexts.{IsReady, Advances};
ghost use Rattle.solver_graph.specs.Searching.{solver_meaning};
ghost use Rattle.solver_graph.specs.Shortages.{StoreIsFull};

use crate::context::SolverCx;
use goal_frames::GoalHandler;
use goal_frames::store::{InputId, ResponseId};
use infer_table::input::CanonicalInput;
use infer_table::response::CanonicalResponse;
use search_graph::{Reply, Request};
use type_terms::Fault;

/// A reply for the frame of a goal, with the response instead of its number.
///
/// The only fault is `Memory`.
pub(crate) fn read_reply<H: GoalHandler>(
    cx: &SolverCx<H>,
    reply: Reply<Option<ResponseId>>,
) -> Result<Reply<Option<CanonicalResponse>>, Fault>
    requires { Search.IsReply (solver_meaning H.meaning) cx.now reply }
    ensures is { IfOk result (λ r. reply_read cx.now.interner.entries r ≡ Search.reply_of (solver_meaning H.meaning) cx.now reply) }
    ensures held { IfOk result (Frames.ReplyIsMade cx.now.interner.entries) }
    ensures memory { IfErr result (λ fault. fault ≡ Memory) }
{
    match reply {
        Reply::Begin => Ok(Reply::Begin),
        Reply::Result(id) => {
            let answer = cx.answer(&id)?;
            Ok(Reply::Result(answer))
        }
        Reply::Entered => Ok(Reply::Entered),
        Reply::Finished(number) => Ok(Reply::Finished(number)),
        Reply::Ignored => Ok(Reply::Ignored),
    }
}

/// A request for a search, with numbers instead of the nested goal and the response.
///
/// `Full` is returned if as many goals or responses are stored as the limit allows, and `Memory` if memory is refused.
pub(crate) fn keep_request<H: GoalHandler>(
    cx: &mut SolverCx<H>,
    request: Request<CanonicalInput, Option<CanonicalResponse>>,
) -> Result<Request<InputId, Option<ResponseId>>, Fault>
    requires ready { IsReady H.meaning.IsReady cx.old }
    requires held { RequestHeld cx.old.interner.entries request }
    ensures advances { Advances H.meaning.IsReady cx.old cx.new }
    ensures interner { cx.new.interner ≡ cx.old.interner }
    ensures known { IfOk result (Search.IsRequest (solver_meaning H.meaning) cx.new) }
    ensures is { IfOk result (λ q. Search.request_of (solver_meaning H.meaning) cx.new q ≡ request_read cx.old.interner.entries request) }
    ensures full { result ≡ Err Fault.Full → StoreIsFull cx.new.store }
{
    match request {
        Request::Evaluate(goal, kind) => {
            let id = cx.keep_goal(goal)?;
            Ok(Request::Evaluate(id, kind))
        }
        Request::EnterCandidate => Ok(Request::EnterCandidate),
        Request::FinishCandidate => Ok(Request::FinishCandidate),
        Request::IgnoreCandidate(number) => Ok(Request::IgnoreCandidate(number)),
        Request::Done(answer) => {
            let kept = cx.keep_answer(answer)?;
            Ok(Request::Done(kept))
        }
    }
}
