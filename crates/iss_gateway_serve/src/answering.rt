//! What the gateway answers to each body.
ghost use Rattle.iss_gateway.specs.Answering.{after_body};
ghost use Rattle.iss_gateway_serve.specs.Answers.{response_to, room_of};

use iss_attend::AnswersBodies;
use iss_gateway::{Gateway, answer};
use iss_http::respond;
use std::alloc::{AllocError, Global};
use std::marker::Model;

/// The gateway, as what answers the requests to it. Contracts see the gateway.
#[derive(Drop)]
pub(crate) struct Attendant {
    pub(crate) gateway: Gateway,
}

impl Model for Attendant {
    ghost use Rattle.iss_gateway.specs.Rules.{Reference};

    ghost Value = { Reference };

    ghost view = { λ attendant. attendant.gateway };
}

impl AnswersBodies for Attendant {
    ghost response = { response_to };

    ghost after = { after_body };

    ghost room = { room_of };

    #[tactic(auto, using(crate::proofs::Statuses::status_known, crate::proofs::Rooms::room_for_one, crate::proofs::Rooms::room_less))]
    fn answer(&mut self, alloc: Global, text: &[u8]) -> Result<Vec<u8>, AllocError> {
        let reply = answer(&mut self.gateway, alloc, text)?;
        respond(alloc, reply.status, &reply.body)
    }
}
